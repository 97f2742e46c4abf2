ghost use Rattle.std.specs.Prelude.{◌≤◌};

/// Where a journal that was opened ends: the place behind its closed gate.
#[derive(Clone, Copy, Debug)]
pub struct Opened {
    pub len: u64,
    ghost within: { (9 ≤ len) × (len ≤ 67108864) },
}
