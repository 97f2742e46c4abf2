ghost use Rattle.std.specs.Prelude.{◌≤◌};

use crate::files::told_fault;
use base_types::{Bytes, both};
use case_inputs::Inputs;
use client_link::{LinkCall, ScriptLink, Target};
use client_proto::{ClientConfig, read_config};
use renewer::{Flight, Lease, LeaseFault, Renewal};
use std::alloc::{AllocError, Global};

const LAST_MOMENT: u64 = 200_000_000_000;

/// `leases CLIENT MARGIN MOMENTS FAIL COUNT REPLIES`: what a lease at each moment answers, over a link with so many replies, of whose
/// calls those of the given numbers fail; then the renewals, and the targets of the calls that were answered.
pub(crate) fn leases(alloc: Global, inputs: &Inputs) -> Result<String, AllocError> {
    match read_config(alloc, inputs.bytes(0)) {
        Ok(config) => leased(alloc, config, inputs),
        Err(fault) => told_fault(alloc, fault),
    }
}

fn leased(alloc: Global, config: ClientConfig, inputs: &Inputs) -> Result<String, AllocError> {
    match script(alloc, inputs) {
        Ok(link) => told_leases(alloc, config, link, inputs.number(1), inputs.text(2)),
        Err(AllocError) => {
            drop(config);
            Err(AllocError)
        }
    }
}

fn script(alloc: Global, inputs: &Inputs) -> Result<ScriptLink, AllocError> {
    let mut replies = Vec::new(alloc);
    for index in 0..inputs.number(4).min(100) as usize {
        replies.push(Bytes::copy_of(alloc, inputs.bytes(5 + index))?)?;
    }
    let fail = numbers(alloc, inputs.text(3))?;
    Ok(ScriptLink::new(alloc, replies, fail))
}

fn numbers(alloc: Global, text: &str) -> Result<Vec<u64>, AllocError> {
    let mut found = Vec::new(alloc);
    for word in text.split(' ') {
        if let Ok(number) = word.parse::<u64>() {
            found.push(number)?;
        }
    }
    Ok(found)
}

fn told_leases(
    alloc: Global,
    config: ClientConfig,
    link: ScriptLink,
    margin: u64,
    moments: &str,
) -> Result<String, AllocError> {
    let mut flight = Flight::new(alloc, link, config, margin.min(3600));
    let answers = told_answers(alloc, &mut flight, moments);
    let renewals = told_renewals(alloc, flight.history());
    let link = flight.into_link();
    let calls = told_calls(alloc, link.answered.as_slice());
    drop(link);
    let (answers, (renewals, calls)) = both(answers, both(renewals, calls))?;
    let answers = answers.as_str();
    let renewals = renewals.as_str();
    let calls = calls.as_str();
    format!(in alloc; "{answers}|{renewals}|{calls}")
}

fn told_answers(
    alloc: Global,
    flight: &mut Flight<ScriptLink>,
    moments: &str,
) -> Result<String, AllocError> {
    let mut told = String::new(alloc);
    for word in moments.split(' ') {
        let at = word.parse::<u64>().unwrap_or(0).min(LAST_MOMENT);
        let answer = told_answer(alloc, flight.lease(alloc, at))?;
        told.push_str(answer.as_str())?;
        told.push_str(";")?;
    }
    Ok(told)
}

fn told_answer(alloc: Global, answer: Result<Lease, LeaseFault>) -> Result<String, AllocError> {
    match answer {
        Ok(lease) => told_lease(alloc, &lease),
        Err(LeaseFault::LinkFault) => "link".to_owned(alloc),
        Err(LeaseFault::Refused { reply }) => {
            let size = reply.as_slice().len();
            format!(in alloc; "refused {size}")
        }
        Err(LeaseFault::BadReply { reply }) => {
            let size = reply.as_slice().len();
            format!(in alloc; "bad {size}")
        }
        Err(LeaseFault::ShortLived { exp }) => format!(in alloc; "short {exp}"),
        Err(LeaseFault::Exhausted { exp }) => format!(in alloc; "exhausted {exp}"),
        Err(LeaseFault::Memory) => Err(AllocError),
    }
}

fn told_lease(alloc: Global, lease: &Lease) -> Result<String, AllocError> {
    let index = lease.index;
    let token = lease.token.as_str();
    let exp = lease.exp;
    format!(in alloc; "lease {index} {token} {exp}")
}

fn told_renewals(alloc: Global, renewals: &[Renewal]) -> Result<String, AllocError> {
    let mut told = String::new(alloc);
    for renewal in renewals {
        let asked = renewal.asked;
        let token = renewal.token.as_str();
        let exp = renewal.exp;
        let line = format!(in alloc; "{asked} {token} {exp};")?;
        told.push_str(line.as_str())?;
    }
    Ok(told)
}

fn told_calls(alloc: Global, calls: &[LinkCall]) -> Result<String, AllocError> {
    let mut told = String::new(alloc);
    for call in calls {
        let letter = match call.target {
            Target::Credential => "C",
            Target::Token => "T",
            Target::Account => "A",
        };
        told.push_str(letter)?;
    }
    Ok(told)
}

/// `renewals CLIENT MARGIN START COUNT CREDENTIAL REPLY MOMENTS`: over a link that always has this credential and this reply, leases at
/// so many moments one second apart; then what the last of them and the leases at the further moments answer, and how many renewals
/// there are.
pub(crate) fn renewals(alloc: Global, inputs: &Inputs) -> Result<String, AllocError> {
    match read_config(alloc, inputs.bytes(0)) {
        Ok(config) => renewed(alloc, config, inputs),
        Err(fault) => told_fault(alloc, fault),
    }
}

fn renewed(alloc: Global, config: ClientConfig, inputs: &Inputs) -> Result<String, AllocError> {
    match repeated(alloc, inputs) {
        Ok(link) => told_renewed(alloc, config, link, inputs),
        Err(AllocError) => {
            drop(config);
            Err(AllocError)
        }
    }
}

// A link with the credential and the reply, so many times in turn.
fn repeated(alloc: Global, inputs: &Inputs) -> Result<ScriptLink, AllocError> {
    let mut replies = Vec::new(alloc);
    for _ in 0..inputs.number(3) {
        replies.push(Bytes::copy_of(alloc, inputs.bytes(4))?)?;
        replies.push(Bytes::copy_of(alloc, inputs.bytes(5))?)?;
    }
    Ok(ScriptLink::new(alloc, replies, Vec::new(alloc)))
}

fn told_renewed(
    alloc: Global,
    config: ClientConfig,
    link: ScriptLink,
    inputs: &Inputs,
) -> Result<String, AllocError> {
    let mut flight = Flight::new(alloc, link, config, inputs.number(1).min(3600));
    let start = inputs.number(2).min(100_000_000_000);
    let count = inputs.number(3).min(1_000_000_000);
    let last = last_answer(alloc, &mut flight, start, count);
    let answers = told_answers(alloc, &mut flight, inputs.text(6));
    let renewals = flight.history().len();
    drop(flight);
    let (last, answers) = both(last, answers)?;
    let last = last.as_str();
    let answers = answers.as_str();
    format!(in alloc; "{last};{answers}|{renewals}")
}

fn last_answer(
    alloc: Global,
    flight: &mut Flight<ScriptLink>,
    start: u64,
    count: u64,
) -> Result<String, AllocError>
    requires start { start ≤ 100_000_000_000 }
    requires count { count ≤ 1_000_000_000 }
{
    let mut last = String::new(alloc);
    for index in 0..count {
        last = told_answer(alloc, flight.lease(alloc, start + index))?;
    }
    Ok(last)
}
