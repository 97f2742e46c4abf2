ghost use Rattle.std.specs.Prelude.{◌≡◌, ◌≢◌, ◌≤◌, IfOk, MatchResult};
ghost use Rattle.wif_base.specs.Causes.{Rose};
ghost use Rattle.client_link.specs.Calls.{Adds, Keeps};
ghost use Rattle.client_link.specs.declared.target.Target.TheVariants.{Credential};
ghost use Rattle.renewer.specs.Leases.{TellsMore};
ghost use Rattle.renewer.specs.Steps as steps;

use crate::fault::LeaseFault;
use crate::renewal::{Given, Renewal};
use base_types::{Bytes, Text};
use client_link::{Link, LinkError, Target};
use client_proto::{
    ClientConfig, ReadReply, SubjectFault, account_request, exchange_request, read_reply,
    subject_of,
};
use std::alloc::{AllocError, Global};
use wif_base::LAST_MOMENT;

/// Asks for a token at a moment: the credential, an access token for its subject token, and a token of the service account where the
/// file names its service.
pub(crate) fn renew<L: Link>(
    alloc: Global,
    link: &mut L,
    config: &ClientConfig,
    at: u64,
) -> Result<Renewal, LeaseFault>
    requires { at ≤ LAST_MOMENT }
    ensures asked { IfOk result (λ renewal. renewal.asked ≡ at) }
    ensures told { TellsMore (L.calls link.old) (L.calls link.new) (steps.AsksRenewal config.now at result) }
    ensures cause { steps.HasStopCause config.now at (L.faults link.old) (L.faults link.new) result }
    ensures same { L.lender link.new ≡ L.lender link.old }
{
    match ask_subject(alloc, link, config, at) {
        Ok(subject) => ask_services(alloc, link, config, subject.as_str(), at),
        Err(fault) => Err(fault),
    }
}

// Calls the link.
fn ask<L: Link>(
    alloc: Global,
    link: &mut L,
    target: Target,
    request: &[u8],
) -> Result<Bytes, LeaseFault>
    ensures told { MatchResult result
        (λ reply. Adds (L.calls link.old) (L.calls link.new) (record { target = target; request = request.now; reply = reply }))
        (λ _. Keeps (L.calls link.old) (L.calls link.new)) }
    ensures count { L.faults link.old ≤ L.faults link.new }
    ensures cause { steps.EndsCall (L.faults link.old) (L.faults link.new) result }
    ensures same { L.lender link.new ≡ L.lender link.old }
{
    match link.call(alloc, target, request) {
        Ok(reply) => Ok(reply),
        Err(LinkError::Failed) => Err(LeaseFault::LinkFault),
        Err(LinkError::Memory) => Err(LeaseFault::Memory),
    }
}

fn ask_subject<L: Link>(
    alloc: Global,
    link: &mut L,
    config: &ClientConfig,
    at: u64,
) -> Result<Text, LeaseFault>
    ensures told { TellsMore (L.calls link.old) (L.calls link.new) (steps.AsksSubject config.now at result) }
    ensures cause { steps.HasStopCause config.now at (L.faults link.old) (L.faults link.new) result }
    ensures same { L.lender link.new ≡ L.lender link.old }
{
    let _moment = at;
    let reply = ask(
        alloc,
        link,
        Target::Credential,
        config.file.as_str().as_bytes(),
    )?;
    match subject_of(alloc, config, reply.as_slice()) {
        Ok(subject) => Ok(subject),
        Err(SubjectFault::Bad) => Err(LeaseFault::BadReply { reply }),
        Err(SubjectFault::Memory) => Err(LeaseFault::Memory),
    }
}

fn ask_service<L: Link>(
    alloc: Global,
    link: &mut L,
    target: Target,
    request: &[u8],
    config: &ClientConfig,
    at: u64,
) -> Result<Given, LeaseFault>
    requires target { target ≢ Credential }
    requires moment { at ≤ LAST_MOMENT }
    ensures told { TellsMore (L.calls link.old) (L.calls link.new) (steps.AsksService config.now target at request.now result) }
    ensures cause { steps.HasStopCause config.now at (L.faults link.old) (L.faults link.new) result }
    ensures same { L.lender link.new ≡ L.lender link.old }
{
    let _ = config;
    let reply = ask(alloc, link, target, request)?;
    match read_reply(alloc, target, at, reply.as_slice()) {
        Ok(ReadReply::Token { token, exp }) => Ok(Given { token, exp }),
        Ok(ReadReply::Refused { status: _ }) => Err(LeaseFault::Refused { reply }),
        Ok(ReadReply::Bad) => Err(LeaseFault::BadReply { reply }),
        Err(AllocError) => Err(LeaseFault::Memory),
    }
}

fn ask_services<L: Link>(
    alloc: Global,
    link: &mut L,
    config: &ClientConfig,
    subject: &str,
    at: u64,
) -> Result<Renewal, LeaseFault>
    requires { at ≤ LAST_MOMENT }
    ensures asked { IfOk result (λ renewal. renewal.asked ≡ at) }
    ensures told { TellsMore (L.calls link.old) (L.calls link.new) (steps.AsksServices config.now at subject.now result) }
    ensures cause { steps.HasStopCause config.now at (L.faults link.old) (L.faults link.new) result }
    ensures same { L.lender link.new ≡ L.lender link.old }
{
    match exchange(alloc, link, config, subject, at) {
        Ok(given) => ask_account(alloc, link, config, given, at),
        Err(fault) => Err(fault),
    }
}

fn exchange<L: Link>(
    alloc: Global,
    link: &mut L,
    config: &ClientConfig,
    subject: &str,
    at: u64,
) -> Result<Given, LeaseFault>
    requires { at ≤ LAST_MOMENT }
    ensures told { TellsMore (L.calls link.old) (L.calls link.new) (steps.AsksExchange config.now at subject.now result) }
    ensures cause { steps.HasStopCause config.now at (L.faults link.old) (L.faults link.new) result }
    ensures same { L.lender link.new ≡ L.lender link.old }
{
    let request = exchange_request(alloc, config, subject)?;
    ask_service(alloc, link, Target::Token, request.as_slice(), config, at)
}

fn ask_account<L: Link>(
    alloc: Global,
    link: &mut L,
    config: &ClientConfig,
    given: Given,
    at: u64,
) -> Result<Renewal, LeaseFault>
    requires { at ≤ LAST_MOMENT }
    ensures asked { IfOk result (λ renewal. renewal.asked ≡ at) }
    ensures told { TellsMore (L.calls link.old) (L.calls link.new) (steps.AsksAccount config.now at given result) }
    ensures cause { steps.HasStopCause config.now at (L.faults link.old) (L.faults link.new) result }
    ensures same { L.lender link.new ≡ L.lender link.old }
{
    let Some(url) = &config.account else {
        return Ok(renewal_of(at, given));
    };
    let request = account_request(alloc, url, given.token.as_str())?;
    drop(given);
    match ask_service(alloc, link, Target::Account, request.as_slice(), config, at) {
        Ok(given) => Ok(renewal_of(at, given)),
        Err(fault) => Err(fault),
    }
}

fn renewal_of(asked: u64, given: Given) -> Renewal
    ensures { result ≡ record { asked = asked; token = given.token; exp = given.exp } }
{
    Renewal {
        asked,
        token: given.token,
        exp: given.exp,
    }
}
