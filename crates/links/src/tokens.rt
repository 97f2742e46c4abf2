ghost use Rattle.std.specs.Prelude.{◌≡◌, ℕ, List, IfOk, length, nat_lt};
ghost use Rattle.base_types.specs.Rules.{fails_if};
ghost use Rattle.hmac_jws.specs.Compact.{compact};
ghost use Rattle.access_token.specs.Payload.{payload_text};
ghost use Rattle.entry_rules.specs.Passing.{Passes};

use crate::checks::check;
use crate::{RecordedLink, State};
use access_token::write_payload;
use base_types::{Text, kept};
use entry_rules::{ApplyFault, RuleCode};
use hmac_jws::signed_length;
use std::alloc::{AllocError, Global};

const TOKEN_LIMIT: usize = 8192;

/// A link with its token's payload.
#[derive(Debug, Drop)]
pub(crate) struct Issued {
    pub(crate) recorded: RecordedLink,
    pub(crate) payload: Text,
}

/// A link with its token's payload, where the token, which isn't made here, isn't too long.
pub(crate) fn with_payload(
    alloc: Global,
    state: &State,
    recorded: RecordedLink,
    rule: RuleCode,
) -> Result<Issued, ApplyFault>
    ensures issued { IfOk result (λ issued. issued
        ≡ record { recorded = recorded; payload = payload_text state.now.content.issuer recorded.facts }) }
    ensures size { Passes result (fails_if (nat_lt 8192 (length (compact state.now.content.key (payload_text state.now.content.issuer recorded.facts)))) rule) }
{
    match write_payload(alloc, state.issuer(), &recorded.facts) {
        Ok(payload) => sized(Issued { recorded, payload }, rule),
        Err(AllocError) => {
            drop(recorded);
            drop(rule);
            Err(ApplyFault::Memory)
        }
    }
}

fn sized(issued: Issued, rule: RuleCode) -> Result<Issued, ApplyFault>
    ensures issued { IfOk result (λ same. same ≡ issued) }
    ensures size { (key : List ℕ) → Passes result (fails_if (nat_lt 8192 (length (compact key issued.payload))) rule) }
{
    let length = signed_length(issued.payload.as_str().len());
    kept(issued, check(length <= TOKEN_LIMIT, rule))
}
