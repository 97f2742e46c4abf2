use case_inputs::{Inputs, escaped};
use grant_journal::{JournalFile, ReadFault, Standing, passes_limit, read_file};
use std::alloc::{AllocError, Global};
use wif_base::MemDisk;

// The texts in front of the closed gate or of the first bad record, and what stands there.
fn shown(alloc: Global, file: &JournalFile) -> Result<String, AllocError> {
    let mut shown = String::new(alloc);
    let mut at = 8;
    for _ in 0..u64::MAX {
        if passes_limit(at) {
            shown.push_str("J5")?;
            return Ok(shown);
        }
        match file.standing(at) {
            Standing::Closed => {
                shown.push_str(format!(in alloc; "closed at {at}")?.as_str())?;
                return Ok(shown);
            }
            Standing::Text { text, next } => {
                put_text(alloc, &mut shown, text)?;
                at = next;
            }
            Standing::Bad(rule) => {
                shown.push_str(format!(in alloc; "{rule:?} at {at}")?.as_str())?;
                return Ok(shown);
            }
        }
    }
    Ok(shown)
}

// A short text as it is, and of a long one its length.
fn put_text(alloc: Global, shown: &mut String, text: &[u8]) -> Result<(), AllocError> {
    shown.push_str("[")?;
    if text.len() < 100 {
        shown.push_str(escaped(alloc, text)?.as_str())?;
    } else {
        let length = text.len();
        shown.push_str(format!(in alloc; "{length} bytes")?.as_str())?;
    }
    shown.push_str("] ")
}

/// `journal FILE`: the texts that a file gives, and where it ends or which rule it breaks there.
pub(crate) fn journal(alloc: Global, inputs: &Inputs) -> Result<String, AllocError> {
    let mut disk = MemDisk::new(alloc, inputs.bytes(0), 0, 1, Vec::new(alloc))?;
    match read_file(alloc, &mut disk) {
        Ok(file) if file.has_marker() => shown(alloc, &file),
        Ok(_) => "J1 at 0".to_owned(alloc),
        Err(ReadFault::Fault) => "fault".to_owned(alloc),
        Err(ReadFault::Memory) => Err(AllocError),
    }
}
