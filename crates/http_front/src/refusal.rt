ghost use Rattle.std.specs.Prelude.{◌≡◌, ◌≢◌, ◌↔◌, ◌⊎◌, ◌<◌, ℕ, None, Some, IfOk};
ghost use Rattle.http_front.specs.Replies.{refusal, refusal_text as text_of};
ghost use Rattle.http_front.specs.Rules.{number_of, status as status_by, word, code};
ghost use Rattle.http_front.specs.declared.rule.HttpRule.{HttpRule};

use crate::HttpRule;
use base_types::Bytes;
use case_table::Table;
use std::alloc::{AllocError, Global};
use wif_base::Reply;

/// The reply to a request that breaks a rule.
pub fn refusal_of(alloc: Global, rule: HttpRule) -> Result<Reply, AllocError>
    ensures { IfOk result (λ reply. reply ≡ refusal rule) }
{
    let status = status_of(rule as u8).unwrap();
    Ok(Reply {
        status,
        body: Bytes::copy_of(alloc, refusal_text(rule).as_bytes())?,
    })
}

/// The status of the reply by the number of the rule.
pub fn status_of(rule: u8) -> Option<u16>
    ensures status { (broken : HttpRule) → rule ≡ number_of broken → result ≡ Some (status_by broken) }
    ensures none { result ≡ None ↔ (rule < 1 ⊎ 11 < rule) }
{
    let table = Table::new([
        (1, 400),
        (2, 431),
        (3, 414),
        (4, 404),
        (5, 405),
        (6, 501),
        (7, 411),
        (8, 400),
        (9, 413),
        (10, 415),
        (11, 400),
    ])
    .unwrap();
    let status = table.find(u32::from(rule))?;
    Some(status as u16)
}

// The body of a refusal, of its word and its code.
macro_rules! refusal_body {
    ($word:literal, $code:literal) => {
        concat!(
            "{\"error\":\"",
            $word,
            "\",\"error_description\":\"",
            $code,
            "\"}"
        )
    };
}

fn refusal_text(rule: HttpRule) -> &'static str
    ensures { result.now ≡ text_of (word rule) (code rule) }
{
    match rule {
        HttpRule::H1 => refusal_body!("bad_request", "H1"),
        HttpRule::H2 => refusal_body!("head_too_large", "H2"),
        HttpRule::H3 => refusal_body!("target_too_long", "H3"),
        HttpRule::H4 => refusal_body!("not_found", "H4"),
        HttpRule::H5 => refusal_body!("method_not_allowed", "H5"),
        HttpRule::H6 => refusal_body!("not_implemented", "H6"),
        HttpRule::H7 => refusal_body!("length_required", "H7"),
        HttpRule::H8 => refusal_body!("bad_request", "H8"),
        HttpRule::H9 => refusal_body!("body_too_large", "H9"),
        HttpRule::H10 => refusal_body!("unsupported_media_type", "H10"),
        HttpRule::H11 => refusal_body!("bad_request", "H11"),
    }
}
