ghost use Rattle.std.specs.Prelude.{◌≡◌, ◌<◌, ◌^◌, ℕ, List, Some, true, IsUtf8};
ghost use Rattle.iam_names.specs.Audience.{is_audience};
ghost use Rattle.links.specs.declared.entry.Entry.{Entry as Recorded};
ghost use Rattle.links.specs.Entries.{IsEntry};
ghost use Rattle.entry_texts.specs.Exact.{IsExactEntry, IsLink};
ghost use Rattle.entry_texts.specs.Reading.{entry_of};
ghost use Rattle.entry_texts.specs.Written.{entry_text};

use links::{Entry, Exchange};

/// A law: the text of an exact entry is UTF-8 and says that entry.
pub fn an_exact_entry_reads_back()
    ensures utf8 { (e : Recorded) → IsExactEntry e → IsUtf8 (entry_text e) }
    ensures reads_back { (e : Recorded) → IsExactEntry e → entry_of (entry_text e) ≡ Some e }
{}

/// A law: a text that says an entry is that entry's and no other's, and the entry is exact.
pub fn a_text_says_one_entry()
    ensures text { (text : List ℕ) (e : Recorded) → entry_of text ≡ Some e → text ≡ entry_text e }
    ensures exact { (text : List ℕ) (e : Recorded) → entry_of text ≡ Some e → IsExactEntry e }
{}

/// A law: an exact entry has its form.
pub fn exact_entries_have_their_form()
    ensures { (e : Recorded) → IsExactEntry e → IsEntry e }
{}

/// A law: an entry that records a link and has its form is exact, since its names, its token and its numbers are by their types.
pub fn an_entry_has_exact_parts(entry: &Entry)
    ensures { IsEntry entry.now → IsLink entry.now → IsExactEntry entry.now }
{
    match entry {
        Entry::Put(_) => {}
        Entry::Federated(exchange) => exchange_has_exact_parts(exchange),
        Entry::Narrow(narrowing) => has_32_bits(narrowing.parent),
        Entry::Impersonate(impersonation) => has_32_bits(impersonation.parent),
        Entry::Delegate(delegation) => {
            has_32_bits(delegation.subject);
            has_32_bits(delegation.actor);
        }
    }
}

fn exchange_has_exact_parts(exchange: &Exchange)
    ensures provider { is_audience exchange.now.provider ≡ true }
    ensures token { IsUtf8 exchange.now.token }
{
    let _token = exchange.token.as_str();
    let _project = exchange.provider.pool.project.as_str();
    let _pool = exchange.provider.pool.pool.as_str();
    let _provider = exchange.provider.provider.as_str();
}

fn has_32_bits(number: u32)
    ensures { number < 2 ^ 32 }
{}
