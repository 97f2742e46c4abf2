ghost use Rattle.std.specs.Prelude.{◌≡◌, ◌<◌};
ghost use Rattle.generated_work.specs.Draws.{drawn_behind, team_in};

/// The draw behind a draw.
pub(crate) fn next_draw(draw: u32) -> u32
    ensures draw { result ≡ drawn_behind draw }
{
    ((1_103_515_245 * draw as u64 + 12_345) % 2_147_483_648) as u32
}

/// The team of a draw.
pub(crate) fn team_of(draw: u32) -> u32
    ensures team { result ≡ team_in draw }
    ensures below { result < 4 }
{
    draw / 65_536 % 4
}
