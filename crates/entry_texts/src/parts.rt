ghost use Rattle.std.specs.Prelude.{◌≡◌, ◌⊎◌, Ok, Err, IfOk, IfErr, option_map};
ghost use Rattle.serde_json.specs.View.{view};
ghost use Rattle.json_text.specs.Reads.{Reads};
ghost use Rattle.entry_texts.specs.Parts as parts;

use access_token::read_words;
use base_types::Items;
use boundary::{Boundary, read_listed};
use iam_names::{Account, NameError, ScopeWord};
use json_text::{ReadFault, ReadsJson, list_at, text_at, whole_number_at};
use serde_json::Value;
use std::alloc::Global;

const LAST_MOMENT: u64 = 200_000_000_000;

const MAX_LIFETIME: u64 = 3600;

const LINK_NUMBERS: u64 = 1 << 32;

const MAX_ACCOUNTS: usize = 5;

/// A name that was read, as a part of a tree.
pub(crate) fn named<T: Drop>(read: Result<T, NameError>) -> Result<T, ReadFault>
    ensures name { IfOk result (λ name. read ≡ Ok name) }
    ensures fault { IfErr result (λ fault. (fault ≡ ReadFault.Memory) ⊎ (read ≡ Err NameError.Form)) }
{
    match read {
        Ok(name) => Ok(name),
        Err(NameError::Form) => Err(ReadFault::Form),
        Err(NameError::Memory) => Err(ReadFault::Memory),
    }
}

/// The moment under `at`.
pub(crate) fn moment_at(json: &Value) -> Result<u64, ReadFault>
    ensures { Reads result (parts.moment_in (view json.now)) }
{
    match whole_number_at(json, "at") {
        Some(seconds) if seconds <= LAST_MOMENT => Ok(seconds),
        _ => Err(ReadFault::Form),
    }
}

/// The seconds under `lifetime`.
pub(crate) fn lifetime_at(json: &Value) -> Result<u64, ReadFault>
    ensures { Reads result (parts.lifetime_in (view json.now)) }
{
    match whole_number_at(json, "lifetime") {
        Some(seconds) if 1 <= seconds && seconds <= MAX_LIFETIME => Ok(seconds),
        _ => Err(ReadFault::Form),
    }
}

/// The number of a link under a name.
pub(crate) fn link_number_at(json: &Value, name: &str) -> Result<u32, ReadFault>
    ensures { Reads result (parts.link_number_in name.now (view json.now)) }
{
    match whole_number_at(json, name) {
        Some(number) if number < LINK_NUMBERS => Ok(number as u32),
        _ => Err(ReadFault::Form),
    }
}

/// The scope words under `scope`.
pub(crate) fn words_at(alloc: Global, json: &Value) -> Result<Items<ScopeWord>, ReadFault>
    ensures { Reads result (parts.words_at (view json.now)) }
{
    match text_at(json, "scope") {
        Some(text) => read_words(alloc, text),
        None => Err(ReadFault::Form),
    }
}

/// The boundary under `boundary`, which may be absent.
pub(crate) fn boundary_at(alloc: Global, json: &Value) -> Result<Option<Boundary>, ReadFault>
    ensures { Reads result (parts.boundary_in (view json.now)) }
{
    boundary_of(alloc, json.get("boundary"))
}

fn boundary_of(alloc: Global, json: Option<&Value>) -> Result<Option<Boundary>, ReadFault>
    ensures { Reads result (parts.boundary_of (option_map (λ json. view json.now) json.entry)) }
{
    let Some(rules) = json else {
        return Ok(None);
    };
    match read_listed(alloc, rules) {
        Ok(boundary) => Ok(Some(boundary)),
        Err(fault) => Err(fault),
    }
}

/// The service accounts under `accounts`.
pub(crate) fn accounts_at(alloc: Global, json: &Value) -> Result<Items<Account>, ReadFault>
    ensures { Reads result (parts.accounts_in (view json.now)) }
{
    let accounts = list_at::<AccountItem>(alloc, json, "accounts")?;
    if 1 <= accounts.len() && accounts.len() <= MAX_ACCOUNTS {
        Ok(accounts)
    } else {
        drop(accounts);
        Err(ReadFault::Form)
    }
}

/// The form of an account.
struct AccountItem;

impl ReadsJson for AccountItem {
    ghost use Rattle.access_token.specs.Parts.{account_in};

    type Item = Account;

    ghost meaning = { account_in };

    fn read_json(alloc: Global, json: &Value) -> Result<Account, ReadFault> {
        match json.as_str() {
            Some(text) => named(Account::read(alloc, text)),
            None => Err(ReadFault::Form),
        }
    }
}
