ghost use Rattle.std.specs.Prelude.{codes, option_and_then};
ghost use Rattle.serde_json.specs.Find.{get as member};
ghost use Rattle.serde_json.specs.View.{view};
ghost use Rattle.json_text.specs.Reads.{Reads};
ghost use Rattle.access_token.specs.Parts.{pool_in, wif_in};

use crate::names::named;
use crate::scopes::scopes_at;
use crate::who::who_at;
use base_types::{Items, both};
use boundary::{Boundary, read_listed};
use iam_names::{Account, PoolName, ScopeWord, Who};
use json_text::{ReadFault, ReadsJson, list_at};
use serde_json::Value;
use std::alloc::Global;

/// What the private claim `wif` says.
#[derive(Drop)]
pub(crate) struct Wif {
    pub(crate) who: Who,
    pub(crate) pools: Items<PoolName>,
    pub(crate) accounts: Items<Account>,
    pub(crate) scopes: Items<Items<ScopeWord>>,
    pub(crate) bounds: Items<Boundary>,
}

/// What the private claim `wif` of a payload says.
pub(crate) fn wif_at(alloc: Global, json: &Value) -> Result<Wif, ReadFault>
    ensures { Reads result (option_and_then wif_in (member (codes "wif") (view json.now))) }
{
    match json.get("wif") {
        Some(wif) => wif_of(alloc, wif),
        None => Err(ReadFault::Form),
    }
}

#[tactic(auto, unfolding(crate::specs::Parts::wif_in))]
fn wif_of(alloc: Global, json: &Value) -> Result<Wif, ReadFault>
    ensures { Reads result (wif_in (view json.now)) }
{
    let accounts = list_at::<AccountItem>(alloc, json, "accounts");
    let pools = list_at::<PoolItem>(alloc, json, "pools");
    let bounds = list_at::<BoundaryItem>(alloc, json, "bounds");
    let used = both(scopes_at(alloc, json), who_at(alloc, json));
    let limits = both(bounds, both(accounts, pools));
    let ((bounds, (accounts, pools)), (scopes, who)) = both(limits, used)?;
    Ok(Wif {
        who,
        pools,
        accounts,
        scopes,
        bounds,
    })
}

/// The form of a boundary.
struct BoundaryItem;

impl ReadsJson for BoundaryItem {
    ghost use Rattle.boundary.specs.Written.{listed_boundary};

    type Item = Boundary;

    ghost meaning = { listed_boundary };

    fn read_json(alloc: Global, json: &Value) -> Result<Boundary, ReadFault> {
        read_listed(alloc, json)
    }
}

/// The form of an account.
struct AccountItem;

impl ReadsJson for AccountItem {
    ghost use Rattle.access_token.specs.Parts.{account_in};

    type Item = Account;

    ghost meaning = { account_in };

    fn read_json(alloc: Global, json: &Value) -> Result<Account, ReadFault> {
        match json.as_str() {
            Some(text) => named(Account::read(alloc, text)),
            None => Err(ReadFault::Form),
        }
    }
}

/// The form of a pool.
struct PoolItem;

impl ReadsJson for PoolItem {
    ghost use Rattle.access_token.specs.Parts.{pool_in};

    type Item = PoolName;

    ghost meaning = { pool_in };

    fn read_json(alloc: Global, json: &Value) -> Result<PoolName, ReadFault> {
        pool_of(alloc, json)
    }
}

/// The pool of a text.
pub(crate) fn pool_of(alloc: Global, json: &Value) -> Result<PoolName, ReadFault>
    ensures { Reads result (pool_in (view json.now)) }
{
    match json.as_str() {
        Some(text) => named(PoolName::read(alloc, text)),
        None => Err(ReadFault::Form),
    }
}
