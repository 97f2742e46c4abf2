ghost use Rattle.std.specs.Prelude.{◌≡◌, IfOk};
ghost use Rattle.sts_replies.specs.Refusals as refusals;
ghost use Rattle.exchange_form.specs.declared.exchange_rule.ExchangeRule.TheVariants as rules;

use crate::generate_rule::GenerateRule;
use crate::reply::{bad_argument, refused};
use base_types::Text;
use boundary::BoundaryCause;
use entry_rules::RuleCode;
use exchange_form::ExchangeRule;
use std::alloc::{AllocError, Global};
use sts_admin::CommandFault;
use wif_base::Reply;

/// The reply to what a rule forbids.
pub fn refusal_of(alloc: Global, rule: &RuleCode) -> Result<Reply, AllocError>
    ensures { IfOk result (λ reply. reply ≡ refusals.refusal_of rule.now) }
{
    let text = rule.text(alloc)?;
    refused(alloc, status_of(rule), rule.word(), text.as_str())
}

// 403 where a service account may not be impersonated.
fn status_of(rule: &RuleCode) -> u16
    ensures { result ≡ refusals.status_of rule.now }
{
    match rule {
        RuleCode::I8 { .. } | RuleCode::I9 { .. } => 403,
        RuleCode::E11
        | RuleCode::E12 { .. }
        | RuleCode::E14
        | RuleCode::E15
        | RuleCode::E16(_)
        | RuleCode::E17(_)
        | RuleCode::E18(_)
        | RuleCode::E19(_)
        | RuleCode::E20(_)
        | RuleCode::E21
        | RuleCode::E22
        | RuleCode::E23
        | RuleCode::E24
        | RuleCode::E25
        | RuleCode::I5
        | RuleCode::I10
        | RuleCode::I11
        | RuleCode::A4
        | RuleCode::A6 => 400,
    }
}

/// The reply to an exchange that fails the rule (RFC 8693, section 2.2.2).
pub fn exchange_refused(alloc: Global, rule: &ExchangeRule) -> Result<Reply, AllocError>
    ensures { IfOk result (λ reply. reply ≡ refusals.exchange_refusal rule.now) }
{
    match rule {
        ExchangeRule::E1 => invalid_request(alloc, "E1"),
        ExchangeRule::E2 => invalid_request(alloc, "E2"),
        ExchangeRule::E3 => invalid_request(alloc, "E3"),
        ExchangeRule::E4 => refused(alloc, 400, "unsupported_grant_type", "E4"),
        ExchangeRule::E5 => invalid_request(alloc, "E5"),
        ExchangeRule::E6 => invalid_request(alloc, "E6"),
        ExchangeRule::E7 => invalid_request(alloc, "E7"),
        ExchangeRule::E8 => invalid_request(alloc, "E8"),
        ExchangeRule::E9 => invalid_request(alloc, "E9"),
        ExchangeRule::E10 => refused(alloc, 400, "invalid_target", "E10"),
        ExchangeRule::Options => invalid_request(alloc, "E12 Json"),
        ExchangeRule::Boundary { rule, cause } => boundary_refused(alloc, *rule, *cause),
        ExchangeRule::E13 => invalid_request(alloc, "E13"),
        ExchangeRule::Unlicensed(code) => refusal_of(alloc, code),
    }
}

// A request that is no exchange as it should be (RFC 6749, section 5.2).
fn invalid_request(alloc: Global, text: &str) -> Result<Reply, AllocError>
    ensures { IfOk result (λ reply. reply ≡ refusals.invalid_request text.now) }
{
    refused(alloc, 400, "invalid_request", text)
}

// The rule of a boundary that is refused, and why.
fn boundary_refused(alloc: Global, rule: usize, cause: BoundaryCause) -> Result<Reply, AllocError>
    ensures { IfOk result (λ reply. reply ≡ refusals.exchange_refusal (rules.Boundary rule cause)) }
{
    let name = cause_name(cause);
    let text = Text::new(format!(in alloc; "E12 {name} {rule}")?);
    invalid_request(alloc, text.as_str())
}

fn cause_name(cause: BoundaryCause) -> &'static str
    ensures { result.now ≡ refusals.cause_text cause }
{
    match cause {
        BoundaryCause::Shape => "Shape",
        BoundaryCause::TooMany => "TooMany",
        BoundaryCause::Resource => "Resource",
        BoundaryCause::Permission => "Permission",
        BoundaryCause::Condition => "Condition",
    }
}

/// The reply to a request for a service account's token that fails the rule.
pub fn generate_refused(alloc: Global, rule: GenerateRule) -> Result<Reply, AllocError>
    ensures { IfOk result (λ reply. reply ≡ refusals.generate_refusal rule) }
{
    match rule {
        GenerateRule::I1 => refused(alloc, 401, "invalid_token", "I1"),
        GenerateRule::I2 => bad_argument(alloc, "I2"),
        GenerateRule::I3 => bad_argument(alloc, "I3"),
        GenerateRule::I4 => bad_argument(alloc, "I4"),
        GenerateRule::I5 => bad_argument(alloc, "I5"),
        GenerateRule::I6 => bad_argument(alloc, "I6"),
        GenerateRule::I7 => refused(alloc, 401, "invalid_token", "I7"),
    }
}

/// The reply to a command without a form.
pub fn command_refused(alloc: Global, fault: CommandFault) -> Result<Reply, AllocError>
    ensures { IfOk result (λ reply. reply ≡ refusals.command_refusal fault) }
{
    let text = fault_text(alloc, fault)?;
    bad_argument(alloc, text.as_str())
}

fn fault_text(alloc: Global, fault: CommandFault) -> Result<Text, AllocError>
    ensures { IfOk result (λ text. text ≡ refusals.fault_text fault) }
{
    match fault {
        CommandFault::Field(member) => {
            let name = member.name();
            Ok(Text::new(format!(in alloc; "A3 {name}")?))
        }
        CommandFault::Expression(member) => {
            let name = member.name();
            Ok(Text::new(format!(in alloc; "A5 {name}")?))
        }
        CommandFault::Kind | CommandFault::Memory => Text::copy_of(alloc, "A2"),
    }
}
