ghost use Rattle.std.specs.Prelude.{◌≡◌, ◌<◌, ◌+◌, ◌^◌, IfOk, Some, nat_lt, not, option_map};
ghost use Rattle.std.specs.List.{list_all};
ghost use Rattle.base_types.specs.Rules.{fails_if};
ghost use Rattle.entry_rules.specs.Passing.{Passes};
ghost use Rattle.links.specs.Authority.{is_live};
ghost use Rattle.links.specs.Licence.{knows_word};
ghost use Rattle.links.specs.Recorded.{recorded};
ghost use Rattle.links.specs.State.{chain};

use crate::authority::live;
use crate::{RecordedLink, State};
use allow_policy::knows_scope;
use entry_rules::{ApplyFault, RuleCode, unlicensed};
use iam_names::ScopeWord;

const DEPTH_LIMIT: u32 = 8;

/// The rule forbids an entry unless this holds.
pub(crate) fn check(holds: bool, rule: RuleCode) -> Result<(), ApplyFault>
    ensures { Passes result (fails_if (not holds) rule) }
{
    if holds {
        drop(rule);
        return Ok(());
    }
    Err(unlicensed(rule))
}

/// Whether each scope word is there.
pub fn knows_words(state: &State, words: &[ScopeWord]) -> bool
    ensures { result ≡ list_all (knows_word state.now.content) words.now }
{
    let policies = &state.view().policies;
    words
        .iter()
        .all(|word| knows_scope(policies, word.as_str()))
}

/// The rule on how long a chain is behind a link of that depth.
pub(crate) fn check_depth(depth: u32, rule: RuleCode) -> Result<(), ApplyFault>
    ensures { Passes result (fails_if (nat_lt 8 (depth + 1)) rule) }
{
    check(depth < DEPTH_LIMIT, rule)
}

/// What is held of the link of that number, where it is live.
pub(crate) fn live_link(
    state: &State,
    number: u32,
    now: u64,
    rule: RuleCode,
) -> Result<&RecordedLink, ApplyFault>
    ensures link { IfOk result (λ link. option_map recorded (chain state.now.content number) ≡ Some link.now) }
    ensures passes { Passes result (fails_if (not (is_live state.now.content.view (chain state.now.content number) now)) rule) }
{
    if number >= state.link_count() {
        return Err(unlicensed(rule));
    }
    if !live(state, number, now) {
        return Err(unlicensed(rule));
    }
    drop(rule);
    Ok(state.recorded(number))
}
