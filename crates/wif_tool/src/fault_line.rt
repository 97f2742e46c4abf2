ghost use Rattle.std.specs.Prelude.{◌≡◌, ◌≤◌};
ghost use Rattle.grant_journal.specs.declared.rule.JournalRule.{JournalRule as Rule};
ghost use Rattle.wif_base.specs.Causes.{Rose};
ghost use Rattle.wif_tool.specs.Lines.{LineDue, malformed_line, refusal_line, rule_text};

use grant_journal::JournalRule;
use std::alloc::Global;
use wif_base::{Failed, Sink, write_text};

/// The line behind the replies where what follows is no frame. Answers the status.
pub(crate) fn write_malformed_line<O: Sink>(alloc: Global, output: &mut O, offset: u64) -> u8
    ensures line { LineDue (malformed_line offset) 8 (O.taken output.old) (O.taken output.new) result }
    ensures cause { result ≡ 4 → Rose (O.faults output.old) (O.faults output.new) }
    ensures count { O.faults output.old ≤ O.faults output.new }
{
    let Ok(line) = format!(in alloc; "fault 8 at {offset}\n") else {
        return 7;
    };
    match write_text(output, line.as_bytes()) {
        Ok(()) => 8,
        Err(Failed) => 4,
    }
}

/// The line of a journal that is refused. Answers the status.
pub(crate) fn write_refusal_line<O: Sink>(
    alloc: Global,
    output: &mut O,
    at: u64,
    rule: JournalRule,
) -> u8
    ensures line { LineDue (refusal_line at rule) 6 (O.taken output.old) (O.taken output.new) result }
    ensures cause { result ≡ 4 → Rose (O.faults output.old) (O.faults output.new) }
    ensures count { O.faults output.old ≤ O.faults output.new }
{
    let name = name_of(rule);
    let Ok(line) = format!(in alloc; "fault 6 at {at} rule {name}\n") else {
        return 7;
    };
    match write_text(output, line.as_bytes()) {
        Ok(()) => 6,
        Err(Failed) => 4,
    }
}

fn name_of(rule: JournalRule) -> &'static str
    ensures { result.now ≡ rule_text rule }
{
    match rule {
        JournalRule::J1 => "J1",
        JournalRule::J2 => "J2",
        JournalRule::J3 => "J3",
        JournalRule::J4 => "J4",
        JournalRule::J5 => "J5",
    }
}
