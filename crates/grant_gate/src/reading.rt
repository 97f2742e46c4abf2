ghost use Rattle.std.specs.Prelude.{◌≡◌, ◌≤◌, ◌⊎◌, Ok, Err, IfOk, IfErr, length};
ghost use Rattle.access_token.specs.Reading.{ReadsPayload};
ghost use Rattle.grant_gate.specs.Carried.{carried_of, claimed as claimed_of, gate_fault as fault_of};

use crate::GateFault;
use access_token::{Facts, PayloadFault, read_payload};
use hmac_jws::{JwsFault, verify};
use std::alloc::Global;

/// The facts that a token's text carries under a key of at least 32 bytes: its MAC is right, and its payload is the one
/// that is written for these facts and that issuer. It knows no state and no clock, so it doesn't say that the token was
/// issued, nor that it's live.
#[tactic(auto, unfolding(crate::specs::Carried::carried_of))]
pub fn carried(alloc: Global, key: &[u8], issuer: &str, text: &str) -> Result<Facts, GateFault>
    requires { 32 ≤ length key.now }
    ensures facts { IfOk result (λ facts. carried_of key.now issuer.now text.now ≡ Ok facts) }
    ensures fault { IfErr result (λ fault. (fault ≡ GateFault.Memory) ⊎ (carried_of key.now issuer.now text.now ≡ Err fault)) }
{
    match verify(alloc, key, text) {
        Ok(verified) => claimed(read_payload(alloc, issuer, verified.payload.as_slice())),
        Err(fault) => Err(gate_fault(fault)),
    }
}

fn gate_fault(fault: JwsFault) -> GateFault
    ensures { result ≡ fault_of fault }
{
    match fault {
        JwsFault::Parts | JwsFault::Base64 { .. } => GateFault::Shape,
        JwsFault::Header | JwsFault::Alg | JwsFault::Crit => GateFault::Shape,
        JwsFault::Mac => GateFault::Mac,
        JwsFault::Memory => GateFault::Memory,
    }
}

fn claimed(read: Result<Facts, PayloadFault>) -> Result<Facts, GateFault>
    ensures facts { (there : _) → ReadsPayload read there → IfOk result (λ facts. claimed_of there ≡ Ok facts) }
    ensures fault { (there : _) → ReadsPayload read there → IfErr result (λ fault. (fault ≡ GateFault.Memory) ⊎ (claimed_of there ≡ Err fault)) }
{
    match read {
        Ok(facts) => Ok(facts),
        Err(PayloadFault::Form) => Err(GateFault::Claims),
        Err(PayloadFault::Memory) => Err(GateFault::Memory),
    }
}
