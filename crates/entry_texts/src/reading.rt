ghost use Rattle.std.specs.Prelude.{◌≡◌, IfOk, option_and_then};
ghost use Rattle.std.specs.Str.{bytes_eq};
ghost use Rattle.json_text.specs.Document.{document};
ghost use Rattle.json_text.specs.Reads.{Reads};
ghost use Rattle.entry_texts.specs.Parts.{entry_in as entry_under};
ghost use Rattle.entry_texts.specs.Reading.{entry_of, ReadsEntry};
ghost use Rattle.entry_texts.specs.Written.{entry_text as text_of};

use crate::recorded::entry_in;
use crate::writing::entry_text;
use json_text::{DocumentFault, ReadFault, read_document};
use links::Entry;
use std::alloc::{AllocError, Global};

/// Why a text says no entry.
#[derive(Clone, Copy, Debug)]
pub enum EntryFault {
    /// It isn't the text that is written for an entry whose parts have their forms.
    Form,
    Memory,
}

/// The entry that a text says. `Form` comes exactly where it says none.
#[tactic(auto, unfolding(crate::specs::Reading::entry_of))]
pub fn read_entry(alloc: Global, text: &[u8]) -> Result<Entry, EntryFault>
    ensures { ReadsEntry result (entry_of text.now) }
{
    let entry = parts_of(alloc, text)?;
    match is_written_as(alloc, &entry, text) {
        Ok(true) => Ok(entry),
        Ok(false) => {
            drop(entry);
            Err(EntryFault::Form)
        }
        Err(AllocError) => {
            drop(entry);
            Err(EntryFault::Memory)
        }
    }
}

// Whether the text is the one that is written for the entry.
fn is_written_as(alloc: Global, entry: &Entry, text: &[u8]) -> Result<bool, AllocError>
    ensures { IfOk result (λ same. same ≡ bytes_eq (text_of entry.now) text.now) }
{
    let written = entry_text(alloc, entry)?;
    Ok(written.as_str().as_bytes() == text)
}

// The entry whose parts stand in a text, each of its form.
fn parts_of(alloc: Global, text: &[u8]) -> Result<Entry, EntryFault>
    ensures { ReadsEntry result (option_and_then entry_under (document text.now)) }
{
    match read_document(alloc, text) {
        Ok(json) => entry_or(entry_in(alloc, &json)),
        Err(DocumentFault::NoJson) => Err(EntryFault::Form),
        Err(DocumentFault::Memory) => Err(EntryFault::Memory),
    }
}

fn entry_or(read: Result<Entry, ReadFault>) -> Result<Entry, EntryFault>
    ensures { (there : _) → Reads read there → ReadsEntry result there }
{
    match read {
        Ok(entry) => Ok(entry),
        Err(ReadFault::Form) => Err(EntryFault::Form),
        Err(ReadFault::Memory) => Err(EntryFault::Memory),
    }
}
