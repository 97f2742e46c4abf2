ghost use Rattle.std.specs.Prelude.{◌≡◌, ◌<◌, ◌∷◌, [], ◌==◌, length, nat_le, IfSome, MatchOption};
ghost use Rattle.std.specs.List.{list_all, slice_split};
ghost use Rattle.serde_json.specs.View.{view};
ghost use Rattle.base_types.specs.Forms.{passing};
ghost use Rattle.iam_names.specs.Forms.{is_scope_word};
ghost use Rattle.json_text.specs.Reads.{Reads};
ghost use Rattle.access_token.specs.Parts.{scope_in, scopes_in, words_in};

use crate::names::named;
use base_types::Items;
use iam_names::ScopeWord;
use json_text::{ReadFault, ReadsJson, list_at};
use serde_json::Value;
use std::alloc::Global;

const MAX_WORDS: usize = 16;

/// The words of one exchange or more, the last one last.
pub(crate) fn scopes_at(alloc: Global, wif: &Value) -> Result<Items<Items<ScopeWord>>, ReadFault>
    ensures { Reads result (scopes_in (view wif.now)) }
{
    let scopes = list_at::<ScopeItem>(alloc, wif, "scopes")?;
    if scopes.len() >= 1 {
        Ok(scopes)
    } else {
        Err(ReadFault::Form)
    }
}

/// The form of a scope.
struct ScopeItem;

impl ReadsJson for ScopeItem {
    ghost use Rattle.access_token.specs.Parts.{scope_in};

    type Item = Items<ScopeWord>;

    ghost meaning = { scope_in };

    fn read_json(alloc: Global, json: &Value) -> Result<Items<ScopeWord>, ReadFault> {
        scope_of(alloc, json)
    }
}

fn scope_of(alloc: Global, json: &Value) -> Result<Items<ScopeWord>, ReadFault>
    ensures { Reads result (scope_in (view json.now)) }
{
    match json.as_str() {
        Some(text) => read_words(alloc, text),
        None => Err(ReadFault::Form),
    }
}

/// 1 to 16 scope words with one space between (RFC 6749, section 3.3).
pub fn read_words(alloc: Global, text: &str) -> Result<Items<ScopeWord>, ReadFault>
    ensures { Reads result (words_in text.now) }
{
    let words = words_of(alloc, text)?;
    if words.len() <= MAX_WORDS {
        Ok(words)
    } else {
        Err(ReadFault::Form)
    }
}

fn words_of(alloc: Global, text: &str) -> Result<Items<ScopeWord>, ReadFault>
    ensures { Reads result (passing (list_all is_scope_word) (slice_split (λ byte. byte == 32) text.now)) }
{
    let mut words = Items::new(alloc);
    let mut rest = text;
    while let Some((word, more)) = cut_at_space(rest) {
        words.push(named(ScopeWord::read(alloc, word))?)?;
        rest = more;
    }
    words.push(named(ScopeWord::read(alloc, rest))?)?;
    Ok(words)
}

fn cut_at_space(text: &str) -> Option<(&str, &str)>
    ensures parts { MatchOption result (slice_split (λ byte. byte == 32) text.now ≡ text.now ∷ [])
        (λ cut. slice_split (λ byte. byte == 32) text.now ≡ cut.0.now ∷ slice_split (λ byte. byte == 32) cut.1.now) }
    ensures shorter { IfSome result (λ cut. length cut.1.now < length text.now) }
{
    text.split_once(' ')
}
