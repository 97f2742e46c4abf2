ghost use Rattle.std.specs.Prelude.{◌≡◌, ◌++◌, codes, string_bytes, map, IfOk, OnOk};
ghost use Rattle.client_top.specs.Report.{line_text as text_of_line, lines_from, lines_of, outcome_text as text_of, renewal_text as text_of_renewal, renewals_from, report_text};

use crate::outcome::Outcome;
use renewer::Renewal;
use std::alloc::{AllocError, Global};

/// The text of a run: the lines of its workers, and those of its renewals.
pub(crate) fn report(
    alloc: Global,
    moments: &[Vec<u64>],
    lists: &[Vec<Outcome>],
    history: &[Renewal],
) -> Result<String, AllocError>
    ensures { IfOk result (λ text. string_bytes text
        ≡ report_text (map (λ list. list.items) moments.now) (map (λ list. list.items) lists.now) history.now) }
{
    let mut text = String::new(alloc);
    put_workers(alloc, &mut text, moments, lists)?;
    put_renewals(alloc, &mut text, history)?;
    Ok(text)
}

fn put_workers(
    alloc: Global,
    text: &mut String,
    moments: &[Vec<u64>],
    lists: &[Vec<Outcome>],
) -> Result<(), AllocError>
    ensures { OnOk result (string_bytes text.new
        ≡ string_bytes text.old ++ lines_from 0 (map (λ list. list.items) moments.now) (map (λ list. list.items) lists.now)) }
{
    let workers = moments.len().min(lists.len());
    for worker in 0..workers {
        put_lines(alloc, text, worker, &moments[worker], &lists[worker])?;
    }
    Ok(())
}

// The lines of one worker.
fn put_lines(
    alloc: Global,
    text: &mut String,
    worker: usize,
    moments: &[u64],
    outcomes: &[Outcome],
) -> Result<(), AllocError>
    ensures { OnOk result (string_bytes text.new ≡ string_bytes text.old ++ lines_of worker moments.now outcomes.now) }
{
    let count = moments.len().min(outcomes.len());
    for place in 0..count {
        let line = line_text(alloc, worker, moments[place], outcomes[place])?;
        text.push_str(line.as_str())?;
    }
    Ok(())
}

fn line_text(
    alloc: Global,
    worker: usize,
    moment: u64,
    outcome: Outcome,
) -> Result<String, AllocError>
    ensures { IfOk result (λ text. string_bytes text ≡ text_of_line worker moment outcome) }
{
    let told = outcome_text(alloc, outcome)?;
    format!(in alloc; "{worker} {moment} {told}\n")
}

fn outcome_text(alloc: Global, outcome: Outcome) -> Result<String, AllocError>
    ensures { IfOk result (λ text. string_bytes text ≡ text_of outcome) }
{
    match outcome {
        Outcome::Lease { index, exp } => format!(in alloc; "lease {index} {exp}"),
        Outcome::Link => "fault link".to_owned(alloc),
        Outcome::Refused => "fault refused".to_owned(alloc),
        Outcome::BadReply => "fault bad_reply".to_owned(alloc),
        Outcome::ShortLived => "fault short_lived".to_owned(alloc),
        Outcome::Exhausted => "fault exhausted".to_owned(alloc),
    }
}

fn put_renewals(alloc: Global, text: &mut String, history: &[Renewal]) -> Result<(), AllocError>
    ensures { OnOk result (string_bytes text.new ≡ string_bytes text.old ++ renewals_from 0 history.now) }
{
    for index in 0..history.len() {
        let line = renewal_text(alloc, index, &history[index])?;
        text.push_str(line.as_str())?;
    }
    Ok(())
}

fn renewal_text(alloc: Global, index: usize, renewal: &Renewal) -> Result<String, AllocError>
    ensures { IfOk result (λ text. string_bytes text ≡ text_of_renewal index renewal.now) }
{
    let asked = renewal.asked;
    let exp = renewal.exp;
    let token = renewal.token.as_str();
    format!(in alloc; "renewal {index} asked {asked} exp {exp} token {token}\n")
}
