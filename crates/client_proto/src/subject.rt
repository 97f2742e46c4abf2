ghost use Rattle.std.specs.Prelude.{◌≡◌, Some, None, IfOk, IsErrOf, reverse, true};
ghost use Rattle.base_types.specs.Forms.{passing};
ghost use Rattle.client_proto.specs.Subjects as subjects;
ghost use Rattle.client_proto.specs.Subjects.{SubjectReads, subject_in};
ghost use Rattle.client_proto.specs.declared.fault.SubjectFault.TheVariants.{Bad};

use crate::config::ClientConfig;
use crate::fault::SubjectFault;
use base_types::{Text, is_visible_text};
use json_text::{DocumentFault, read_document, text_at};
use std::alloc::Global;

/// The subject token in the bytes of its file: the file without the spaces, tabs, CR and LF at its end, or the text of the named member
/// of the JSON object that it is. `Bad` comes exactly where that isn't 1 or more visible ASCII.
pub fn subject_of(alloc: Global, config: &ClientConfig, bytes: &[u8]) -> Result<Text, SubjectFault>
    ensures read { IfOk result (λ subject. subject_in config.now.field bytes.now ≡ Some subject) }
    ensures bad { IsErrOf result Bad → subject_in config.now.field bytes.now ≡ None }
{
    subject_from(alloc, &config.field, bytes)
}

#[tactic(auto, unfolding(crate::specs::Subjects::subject_in))]
fn subject_from(alloc: Global, field: &Option<Text>, bytes: &[u8]) -> Result<Text, SubjectFault>
    ensures { SubjectReads result (subject_in field.now bytes.now) }
{
    match field {
        None => visible_text(alloc, trimmed(bytes)),
        Some(field) => subject_at(alloc, field.as_str(), bytes),
    }
}

// Without the blanks at the end.
fn trimmed(bytes: &[u8]) -> &[u8]
    ensures { result.now ≡ subjects.trimmed bytes.now }
{
    let mut rest = bytes;
    while let [before @ .., b' ' | b'\t' | b'\r' | b'\n'] = rest {
        rest = before;
    }
    rest
}

fn is_subject(text: &str) -> bool
    ensures { result ≡ subjects.is_subject text.now }
{
    1 <= text.len() && is_visible_text(text)
}

#[tactic(auto, using(crate::proofs::Visibles::no_subject))]
fn visible_text(alloc: Global, bytes: &[u8]) -> Result<Text, SubjectFault>
    ensures { SubjectReads result (passing subjects.is_subject bytes.now) }
{
    match std::str::from_utf8(bytes) {
        Ok(text) => subject_text(alloc, text),
        Err(_) => Err(SubjectFault::Bad),
    }
}

fn subject_text(alloc: Global, text: &str) -> Result<Text, SubjectFault>
    ensures { SubjectReads result (passing subjects.is_subject text.now) }
{
    if is_subject(text) {
        Ok(Text::copy_of(alloc, text)?)
    } else {
        Err(SubjectFault::Bad)
    }
}

// The member of the JSON object that the bytes are.
fn subject_at(alloc: Global, field: &str, bytes: &[u8]) -> Result<Text, SubjectFault>
    ensures { SubjectReads result (subjects.subject_under field.now bytes.now) }
{
    let json = match read_document(alloc, bytes) {
        Ok(json) => json,
        Err(DocumentFault::NoJson) => return Err(SubjectFault::Bad),
        Err(DocumentFault::Memory) => return Err(SubjectFault::Memory),
    };
    match text_at(&json, field) {
        Some(text) => subject_text(alloc, text),
        None => Err(SubjectFault::Bad),
    }
}
