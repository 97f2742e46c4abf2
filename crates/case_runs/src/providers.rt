use base_types::{Text, TextMap};
use case_inputs::{Inputs, escaped};
use iam_names::Identity;
use json_text::{DocumentFault, read_document, texts_value};
use pools::{MapFault, Provider, admit};
use service_view::Command;
use std::alloc::{AllocError, Global};
use sts_admin::{CommandFault, read_command};
use wif_claims::read_claims;

// The provider that a command puts.
fn provider_of(alloc: Global, command: &[u8]) -> Result<Option<Provider>, AllocError> {
    match read_document(alloc, command) {
        Ok(json) => provider_in(read_command(alloc, &json)),
        Err(DocumentFault::NoJson) => Ok(None),
        Err(DocumentFault::Memory) => Err(AllocError),
    }
}

fn provider_in(read: Result<Command, CommandFault>) -> Result<Option<Provider>, AllocError> {
    match read {
        Ok(Command::Provider(provider)) => Ok(Some(provider)),
        Err(CommandFault::Memory) => Err(AllocError),
        _ => Ok(None),
    }
}

fn put_attribute_texts(
    alloc: Global,
    shown: &mut String,
    attributes: &TextMap<Text>,
) -> Result<(), AllocError> {
    for (name, text) in attributes.iter() {
        let name = name.as_str();
        let text = text.as_str();
        shown.push_str(format!(in alloc; " {name}={text}")?.as_str())?;
    }
    Ok(())
}

fn shown(alloc: Global, who: &Identity) -> Result<String, AllocError> {
    let subject = who.subject.as_str();
    let groups = texts_value(alloc, who.groups.as_slice())?.to_string(alloc)?;
    let mut shown = format!(in alloc; "subject {subject} groups {groups} attributes")?;
    put_attribute_texts(alloc, &mut shown, &who.attributes)?;
    escaped(alloc, shown.as_bytes())
}

fn fault_text(alloc: Global, fault: &MapFault) -> Result<String, AllocError> {
    match fault {
        MapFault::Attribute { name } => {
            let name = name.as_str();
            format!(in alloc; "Attribute {name}")
        }
        MapFault::TooLong { key } => {
            let key = key.as_str();
            format!(in alloc; "TooLong {key}")
        }
        MapFault::Memory => Err(AllocError),
        fault => format!(in alloc; "{fault:?}"),
    }
}

fn told(alloc: Global, admitted: Result<Identity, MapFault>) -> Result<String, AllocError> {
    match admitted {
        Ok(who) => {
            let text = shown(alloc, &who);
            drop(who);
            text
        }
        Err(fault) => {
            let text = fault_text(alloc, &fault);
            drop(fault);
            text
        }
    }
}

fn answer(alloc: Global, provider: &Provider, inputs: &Inputs) -> Result<String, AllocError> {
    let Ok(claims) = read_claims(alloc, inputs.bytes(1)) else {
        return "no claims".to_owned(alloc);
    };
    let admitted = admit(alloc, provider, &claims, inputs.number(2));
    drop(claims);
    told(alloc, admitted)
}

/// `admit COMMAND PAYLOAD MOMENT`: the identity that the provider of a command maps the claims of the payload to, or the first rule
/// that they fail.
pub(crate) fn admitted(alloc: Global, inputs: &Inputs) -> Result<String, AllocError> {
    match provider_of(alloc, inputs.bytes(0))? {
        Some(provider) => {
            let text = answer(alloc, &provider, inputs);
            drop(provider);
            text
        }
        None => "no provider".to_owned(alloc),
    }
}
