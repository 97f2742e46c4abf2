ghost use Rattle.std.specs.Prelude.{◌≡◌, IfOk, Some};
ghost use Rattle.serde_json.specs.View.{view};
ghost use Rattle.sts_core.specs.Check.{check_decision};
ghost use Rattle.sts_core.specs.Machine.{checking, check_in};
ghost use Rattle.sts_replies.specs.Replies.{decision_reply};

use crate::introspection::is_bearer;
use base_types::Text;
use exchange_form::read_object;
use grant_gate::{Decision, decide};
use iam_names::{Permission, PermissionForm, Resource, ResourceForm};
use json_text::text_at;
use links::State;
use serde_json::Value;
use std::alloc::{AllocError, Global};
use sts_admin::name_at;
use sts_replies::{bad_argument, decided, no_bearer};
use wif_base::{Reply, Request};

/// Answers a check.
#[tactic(auto, unfolding(crate::specs::Machine::checking))]
pub(crate) fn check(
    alloc: Global,
    gate: &Text,
    state: &State,
    request: &Request,
    now: u64,
) -> Result<Reply, AllocError>
    ensures { IfOk result (λ reply. reply ≡ checking gate.now state.now.content request.now now) }
{
    if !is_bearer(gate, &request.bearer) {
        return no_bearer(alloc);
    }
    match read_object(alloc, request.body.as_slice())? {
        Some(json) => check_object(alloc, state, &json, now),
        None => bad_argument(alloc, "C1"),
    }
}

fn check_object(alloc: Global, state: &State, json: &Value, now: u64) -> Result<Reply, AllocError>
    ensures { IfOk result (λ reply. reply ≡ check_in state.now.content now (Some (view json.now))) }
{
    let Some(token) = text_at(json, "token") else {
        return bad_argument(alloc, "C2");
    };
    let Some(permission) = name_at::<PermissionForm>(alloc, json, "permission")? else {
        return bad_argument(alloc, "C3");
    };
    let Some(resource) = name_at::<ResourceForm>(alloc, json, "resource")? else {
        return bad_argument(alloc, "C4");
    };
    let decision = decide_token(alloc, state, token, &permission, &resource, now)?;
    decided(alloc, decision)
}

// What the token carries decides, as its link does where it was issued for one.
fn decide_token(
    alloc: Global,
    state: &State,
    token: &str,
    permission: &Permission,
    resource: &Resource,
    now: u64,
) -> Result<Decision, AllocError>
    ensures { IfOk result (λ decision. decision ≡ check_decision state.now.content token.now permission.now resource.now now) }
{
    state.has_a_lawful_journal();
    let issuer = state.issuer();
    decide(
        alloc,
        state.view(),
        state.key(),
        issuer,
        token,
        permission,
        resource,
        now,
    )
}
