use std::alloc::AllocError;

/// Why a step gave nothing: a rule that it fails, or want of memory.
#[derive(Debug, Drop)]
pub enum RuleStop<R> {
    Refused(R),
    Memory,
}

impl<R> From<AllocError> for RuleStop<R> {
    ghost use Rattle.std.specs.Prelude.{◌≡◌};
    ghost use Rattle.sts_core.specs.declared.rule_stop.RuleStop.TheVariants.{Memory};

    ghost from_gives = { λ _ stop. stop ≡ Memory };

    fn from(_: AllocError) -> Self {
        RuleStop::Memory
    }
}
