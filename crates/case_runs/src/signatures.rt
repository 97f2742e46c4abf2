use base_types::Text;
use case_inputs::{Inputs, escaped, hexadecimal};
use hmac_jws::{JwsFault, hmac, sign, verify};
use json_text::texts_value;
use std::alloc::{AllocError, Global};
use wif_claims::{ClaimFault, Claims, When, read_claims, timing};

/// `hmac KEY MESSAGE`: the MAC, in hexadecimal digits.
pub(crate) fn hmac_of(alloc: Global, inputs: &Inputs) -> Result<String, AllocError> {
    hexadecimal(alloc, &hmac(inputs.bytes(0), inputs.bytes(1)))
}

/// `sign KEY PAYLOAD`: the compact form.
pub(crate) fn signed(alloc: Global, inputs: &Inputs) -> Result<String, AllocError> {
    let key = inputs.bytes(0);
    if key.len() < 32 {
        return "a short key".to_owned(alloc);
    }
    sign(alloc, key, inputs.bytes(1))
}

/// `verify KEY TEXT`: the payload, or the first rule that fails.
pub(crate) fn verified(alloc: Global, inputs: &Inputs) -> Result<String, AllocError> {
    let key = inputs.bytes(0);
    if key.len() < 32 {
        return "a short key".to_owned(alloc);
    }
    match verify(alloc, key, inputs.text(1)) {
        Ok(found) => {
            let payload = escaped(alloc, found.payload.as_slice())?;
            format!(in alloc; "payload {payload}")
        }
        Err(JwsFault::Base64 { part }) => format!(in alloc; "Base64 {part}"),
        Err(JwsFault::Memory) => Err(AllocError),
        Err(fault) => format!(in alloc; "{fault:?}"),
    }
}

fn list(alloc: Global, texts: &[Text]) -> Result<String, AllocError> {
    let written = texts_value(alloc, texts)?.to_string(alloc)?;
    escaped(alloc, written.as_bytes())
}

fn shown(alloc: Global, claims: &Claims) -> Result<String, AllocError> {
    let iss = escaped(alloc, claims.iss.as_str().as_bytes())?;
    let aud = list(alloc, claims.aud.as_slice())?;
    let may_act = list(alloc, claims.may_act.as_slice())?;
    let exp = claims.exp;
    let nbf = claims.nbf;
    let iat = claims.iat;
    format!(in alloc; "iss {iss} aud {aud} exp {exp} nbf {nbf:?} iat {iat:?} may_act {may_act}")
}

/// `claims PAYLOAD`: the claims, or the first rule that fails.
pub(crate) fn claims(alloc: Global, inputs: &Inputs) -> Result<String, AllocError> {
    match read_claims(alloc, inputs.bytes(0)) {
        Ok(claims) => shown(alloc, &claims),
        Err(ClaimFault::Memory) => Err(AllocError),
        Err(fault) => format!(in alloc; "{fault:?}"),
    }
}

fn word(when: When) -> &'static str {
    match when {
        When::Live => "live",
        When::Expired => "expired",
        When::NotYet => "not yet",
    }
}

/// `timing PAYLOAD MOMENT`: how its claims stand to the moment.
pub(crate) fn timed(alloc: Global, inputs: &Inputs) -> Result<String, AllocError> {
    match read_claims(alloc, inputs.bytes(0)) {
        Ok(claims) => word(timing(&claims, inputs.number(1))).to_owned(alloc),
        Err(_) => "no claims".to_owned(alloc),
    }
}
