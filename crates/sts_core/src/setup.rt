ghost use Rattle.std.specs.Prelude.{◌≡◌};

use base_types::Text;
use links::State;

/// What a configuration sets up: the secrets, and the state before the first entry.
#[derive(Drop)]
pub struct Setup {
    /// The bearer of admin commands.
    pub admin: Text,
    /// The bearer of checks and introspections.
    pub gate: Text,
    pub state: State,
    ghost empty: { state.content.count ≡ 0 },
}
