ghost use Rattle.std.specs.Prelude.{◌≡◌, map, sum};
ghost use Rattle.cel_values.specs.Weight.{weight, entry_weight, room_behind};

use crate::{MapEntry, Value};

/// What a value that is computed may weigh.
pub const WEIGHT: u64 = 65_536;

/// The room that is left behind the value, or none where it weighs more. It looks no further than there is room.
#[cycle(weigh)]
#[tactic(auto, using(crate::proofs::Weights::weight_map))]
pub fn room_left(room: u64, value: &Value) -> Option<u64>
    ensures { result ≡ room_behind room (weight value.now) }
{
    let room = room.checked_sub(1)?;
    match value {
        Value::Text(text) => room.checked_sub(text.as_str().len() as u64),
        Value::List(items) => room_behind_items(room, items.as_slice()),
        Value::Map(entries) => room_behind_entries(room, entries.as_slice()),
        _ => Some(room),
    }
}

#[cycle(weigh)]
fn room_behind_items(room: u64, items: &[Value]) -> Option<u64>
    ensures { result ≡ room_behind room (sum (map weight items.now)) }
{
    let mut room = room;
    for item in items {
        room = room_left(room, item)?;
    }
    Some(room)
}

#[cycle(weigh)]
fn room_behind_entries(room: u64, entries: &[MapEntry]) -> Option<u64>
    ensures { result ≡ room_behind room (sum (map entry_weight entries.now)) }
{
    let mut room = room;
    for entry in entries {
        room = room.checked_sub(entry.key.as_str().len() as u64)?;
        room = room.checked_sub(1)?;
        room = room_left(room, &entry.value)?;
    }
    Some(room)
}
