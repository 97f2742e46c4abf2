ghost use Rattle.std.specs.Prelude.{◌≡◌, ◌<◌, string_bytes, IfOk};
ghost use Rattle.generated_work.specs.Requests.{check_body as body_of_check, check_of, command_of, exchange_form as form_of_exchange, exchange_of, narrowing_form as form_of_narrowing, narrowing_of, outside_claims as claims_of, outside_token as token_of};

use base_types::{Bytes, Text};
use hmac_jws::sign;
use std::alloc::{AllocError, Global};
use wif_base::{Request, Route};

const PROVIDER_KEY: &[u8] = b"PPPPPPPPPPPPPPPPPPPPPPPPPPPPPPPP";

/// A command, by the administrator.
#[tactic(auto, unfolding(crate::specs::Requests::command_of))]
pub(crate) fn command_request(alloc: Global, command: &str) -> Result<Request, AllocError>
    ensures { IfOk result (λ request. request ≡ command_of command.now) }
{
    let bearer = Text::copy_of(alloc, "gen-admin-secret-1")?;
    let body = Bytes::copy_of(alloc, command.as_bytes())?;
    Ok(Request {
        route: Route::Admin,
        bearer: Some(bearer),
        body,
    })
}

/// The exchange of the round's token from outside.
#[tactic(auto, unfolding(crate::specs::Requests::exchange_of))]
pub(crate) fn exchange_request(alloc: Global, round: u32, team: u32) -> Result<Request, AllocError>
    requires { round < 500 }
    ensures { IfOk result (λ request. request ≡ exchange_of round team) }
{
    let token = outside_token(alloc, round, team)?;
    let body = exchange_form(alloc, token.as_str())?;
    Ok(Request {
        route: Route::Token,
        bearer: None,
        body: Bytes::new(body.into_bytes()),
    })
}

// The round's token from outside.
#[tactic(auto, unfolding(crate::specs::Requests::outside_token))]
fn outside_token(alloc: Global, round: u32, team: u32) -> Result<String, AllocError>
    requires { round < 500 }
    ensures { IfOk result (λ token. string_bytes token ≡ token_of round team) }
{
    let claims = outside_claims(alloc, round, team)?;
    sign(alloc, PROVIDER_KEY, claims.as_bytes())
}

#[tactic(auto, unfolding(crate::specs::Requests::outside_claims))]
fn outside_claims(alloc: Global, round: u32, team: u32) -> Result<String, AllocError>
    requires { round < 500 }
    ensures { IfOk result (λ claims. string_bytes claims ≡ claims_of round team) }
{
    let exp = 1_700_000_600 + round;
    format!(in alloc;
        "{{\"aud\":\"//iam.googleapis.com/projects/1/locations/global/workloadIdentityPools/gen-pool/providers/gen-prov\",\
        \"exp\":{exp},\"iss\":\"https://out.example\",\"sub\":\"s{round}\",\"team\":\"t{team}\"}}"
    )
}

#[tactic(auto, unfolding(crate::specs::Requests::exchange_form))]
fn exchange_form(alloc: Global, token: &str) -> Result<String, AllocError>
    ensures { IfOk result (λ form. string_bytes form ≡ form_of_exchange token.now) }
{
    format!(in alloc;
        "grant_type=urn%3Aietf%3Aparams%3Aoauth%3Agrant-type%3Atoken-exchange\
        &audience=%2F%2Fiam.googleapis.com%2Fprojects%2F1%2Flocations%2Fglobal%2FworkloadIdentityPools%2Fgen-pool%2Fproviders%2Fgen-prov\
        &subject_token={token}&subject_token_type=urn%3Aietf%3Aparams%3Aoauth%3Atoken-type%3Ajwt"
    )
}

/// The exchange that narrows a token to the item of that number.
#[tactic(auto, unfolding(crate::specs::Requests::narrowing_of))]
pub(crate) fn narrowing_request(
    alloc: Global,
    token: &str,
    item: u32,
) -> Result<Request, AllocError>
    ensures { IfOk result (λ request. request ≡ narrowing_of token.now item) }
{
    let body = narrowing_form(alloc, token, item)?;
    Ok(Request {
        route: Route::Token,
        bearer: None,
        body: Bytes::new(body.into_bytes()),
    })
}

#[tactic(auto, unfolding(crate::specs::Requests::narrowing_form))]
fn narrowing_form(alloc: Global, token: &str, item: u32) -> Result<String, AllocError>
    ensures { IfOk result (λ form. string_bytes form ≡ form_of_narrowing token.now item) }
{
    format!(in alloc;
        "grant_type=urn%3Aietf%3Aparams%3Aoauth%3Agrant-type%3Atoken-exchange\
        &subject_token={token}&subject_token_type=urn%3Aietf%3Aparams%3Aoauth%3Atoken-type%3Aaccess_token\
        &options=%7B%22accessBoundary%22%3A%7B%22accessBoundaryRules%22%3A%5B%7B\
        %22availablePermissions%22%3A%5B%22inRole%3Aroles%2Fgen.reader%22%5D%2C\
        %22availableResource%22%3A%22%2F%2Fgen.example%2Fitems%2F{item}%22%7D%5D%7D%7D"
    )
}

/// The check of a token for the item of that number.
#[tactic(auto, unfolding(crate::specs::Requests::check_of))]
pub(crate) fn check_request(alloc: Global, token: &str, item: u32) -> Result<Request, AllocError>
    ensures { IfOk result (λ request. request ≡ check_of token.now item) }
{
    let bearer = Text::copy_of(alloc, "gen-gate-secret-01")?;
    let body = check_body(alloc, token, item)?;
    Ok(Request {
        route: Route::Check,
        bearer: Some(bearer),
        body: Bytes::new(body.into_bytes()),
    })
}

#[tactic(auto, unfolding(crate::specs::Requests::check_body))]
fn check_body(alloc: Global, token: &str, item: u32) -> Result<String, AllocError>
    ensures { IfOk result (λ body. string_bytes body ≡ body_of_check token.now item) }
{
    format!(in alloc;
        "{{\"permission\":\"gen.items.get\",\"resource\":\"//gen.example/items/{item}\",\"token\":\"{token}\"}}"
    )
}
