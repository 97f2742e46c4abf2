ghost use Rattle.std.specs.Prelude.{◌≡◌, ◌≢◌, ◌⊎◌, Ok, Err, IfOk, IfErr, IsUtf8};
ghost use Rattle.std.specs.List.{AllByRecursion};
ghost use Rattle.serde_json.specs.View.{view};
ghost use Rattle.wif_claims.specs.Forms.{HasForms};
ghost use Rattle.wif_claims.specs.Payload.{claims_of, claims_of_data};
ghost use Rattle.wif_claims.specs.declared.claims.Claims.{Claims};
ghost use Rattle.wif_claims.specs.declared.claims.ClaimFault.{ClaimFault};

use crate::claims::{ClaimFault, Claims};
use crate::members::{actors_of, audiences_of, needed_date, optional_date};
use base_types::Text;
use cel_values::from_json;
use json_text::{DocumentFault, read_document, text_at};
use serde_json::Value;
use std::alloc::{AllocError, Global};

impl From<AllocError> for ClaimFault {
    ghost from_gives = { λ _ fault. fault ≡ ClaimFault.Memory };

    fn from(_error: AllocError) -> Self {
        ClaimFault::Memory
    }
}

#[tactic(auto, unfolding(crate::specs::Payload::claims_of_data))]
fn claims_of_value(alloc: Global, tree: &Value) -> Result<Claims, ClaimFault>
    ensures exact { (result ≡ claims_of_data (view tree.now)) ⊎ (result ≡ Err ClaimFault.Memory) }
    ensures utf8 { IfOk result (λ claims. AllByRecursion IsUtf8 claims.may_act) }
{
    if !tree.is_object() {
        return Err(ClaimFault::NotObject);
    }
    let Some(iss) = text_at(tree, "iss") else {
        return Err(ClaimFault::Iss);
    };
    let Some(aud) = audiences_of(alloc, tree.get("aud"))? else {
        return Err(ClaimFault::Aud);
    };
    let Some(exp) = needed_date(tree.get("exp")) else {
        return Err(ClaimFault::Exp);
    };
    let Some(nbf) = optional_date(tree.get("nbf")) else {
        return Err(ClaimFault::Nbf);
    };
    let Some(iat) = optional_date(tree.get("iat")) else {
        return Err(ClaimFault::Iat);
    };
    let Some(may_act) = actors_of(alloc, tree.get("may_act"))? else {
        return Err(ClaimFault::MayAct);
    };
    Ok(Claims {
        iss: Text::copy_of(alloc, iss)?,
        aud,
        exp,
        nbf,
        iat,
        may_act,
        tree: from_json(alloc, tree)?,
    })
}

/// The claims of a payload, or the first rule that it fails.
pub fn read_claims(alloc: Global, payload: &[u8]) -> Result<Claims, ClaimFault>
    ensures exact { (result ≡ claims_of payload.now) ⊎ (result ≡ Err ClaimFault.Memory) }
    ensures read { IfOk result (λ claims. claims_of payload.now ≡ Ok claims) }
    ensures refused { IfErr result (λ fault. fault ≢ ClaimFault.Memory
        → claims_of payload.now ≡ Err fault) }
    ensures forms { IfOk result HasForms }
{
    match read_document(alloc, payload) {
        Ok(tree) => claims_of_value(alloc, &tree),
        Err(DocumentFault::NoJson) => Err(ClaimFault::Json),
        Err(DocumentFault::Memory) => Err(ClaimFault::Memory),
    }
}
