ghost use Rattle.std.specs.Prelude.{◌≡◌, IfOk, option_and_then};
ghost use Rattle.std.specs.Str.{bytes_eq};
ghost use Rattle.serde_json.specs.View.{view};
ghost use Rattle.json_text.specs.Document.{document};
ghost use Rattle.json_text.specs.Reads.{Reads};
ghost use Rattle.access_token.specs.Parts.{facts_in as facts_under};
ghost use Rattle.access_token.specs.Payload.{payload_text};
ghost use Rattle.access_token.specs.Reading.{payload_facts, ReadsPayload};

use crate::Facts;
use crate::numbers::{date_at, number_at};
use crate::parties::parties_at;
use crate::payload::write_payload;
use crate::wif::wif_at;
use base_types::both;
use json_text::{DocumentFault, ReadFault, read_document};
use serde_json::Value;
use std::alloc::{AllocError, Global};

/// Why a payload says no facts.
#[derive(Clone, Copy, Debug)]
pub enum PayloadFault {
    /// It isn't the payload that is written for facts of their forms and the issuer.
    Form,
    Memory,
}

/// The facts that a token's payload says that is written for the issuer. `Form` comes exactly where it says none.
#[tactic(auto, unfolding(crate::specs::Reading::payload_facts))]
pub fn read_payload(alloc: Global, issuer: &str, payload: &[u8]) -> Result<Facts, PayloadFault>
    ensures { ReadsPayload result (payload_facts issuer.now payload.now) }
{
    let facts = facts_in(alloc, payload)?;
    match is_written_as(alloc, issuer, &facts, payload) {
        Ok(true) => Ok(facts),
        Ok(false) => {
            drop(facts);
            Err(PayloadFault::Form)
        }
        Err(AllocError) => {
            drop(facts);
            Err(PayloadFault::Memory)
        }
    }
}

// Whether the payload is the one that is written for these facts and the issuer.
fn is_written_as(
    alloc: Global,
    issuer: &str,
    facts: &Facts,
    payload: &[u8],
) -> Result<bool, AllocError>
    ensures { IfOk result (λ same. same ≡ bytes_eq (payload_text issuer.now facts.now) payload.now) }
{
    let text = write_payload(alloc, issuer, facts)?;
    Ok(text.as_str().as_bytes() == payload)
}

// The facts whose parts stand in a payload, each of its form.
fn facts_in(alloc: Global, payload: &[u8]) -> Result<Facts, PayloadFault>
    ensures { ReadsPayload result (option_and_then facts_under (document payload.now)) }
{
    match read_document(alloc, payload) {
        Ok(json) => facts_or(facts_of(alloc, &json)),
        Err(DocumentFault::NoJson) => Err(PayloadFault::Form),
        Err(DocumentFault::Memory) => Err(PayloadFault::Memory),
    }
}

fn facts_or(read: Result<Facts, ReadFault>) -> Result<Facts, PayloadFault>
    ensures { (there : _) → Reads read there → ReadsPayload result there }
{
    match read {
        Ok(facts) => Ok(facts),
        Err(ReadFault::Form) => Err(PayloadFault::Form),
        Err(ReadFault::Memory) => Err(PayloadFault::Memory),
    }
}

// The facts whose parts stand in a tree, each of its form.
#[tactic(auto, unfolding(crate::specs::Parts::facts_in))]
fn facts_of(alloc: Global, json: &Value) -> Result<Facts, ReadFault>
    ensures { Reads result (facts_under (view json.now)) }
{
    let exp = date_at(json, "exp")?;
    let iat = date_at(json, "iat")?;
    let number = number_at(json)?;
    let (parties, wif) = both(parties_at(alloc, json), wif_at(alloc, json))?;
    Ok(Facts {
        number,
        sub: parties.sub,
        iat,
        exp,
        act: parties.act,
        may_act: parties.may_act,
        who: wif.who,
        pools: wif.pools,
        accounts: wif.accounts,
        scopes: wif.scopes,
        bounds: wif.bounds,
    })
}
