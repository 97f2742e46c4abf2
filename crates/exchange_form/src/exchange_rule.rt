use boundary::BoundaryCause;
use entry_rules::RuleCode;

/// The first rule that an exchange fails, in the order in which the rules are looked at.
#[derive(Debug, Drop)]
pub enum ExchangeRule {
    /// A name or a value isn't UTF-8.
    E1,
    /// A parameter has two values that has one at most.
    E2,
    /// `grant_type` is absent.
    E3,
    /// The grant is no token exchange.
    E4,
    /// `subject_token` is absent.
    E5,
    /// `subject_token_type` is absent or none of the types of subject tokens.
    E6,
    /// Another type of token is requested than an access token.
    E7,
    /// `actor_token` and `actor_token_type` aren't there together.
    E8,
    /// The actor token is no access token.
    E9,
    /// `resource` is there.
    E10,
    /// `options` is no JSON object.
    Options,
    /// A rule of the access boundary is refused, or the whole.
    Boundary { rule: usize, cause: BoundaryCause },
    /// A boundary or an actor with a subject token from outside, or a boundary with an actor.
    E13,
    /// The rule forbids the entry.
    Unlicensed(RuleCode),
}
