use base_types::Text;
use case_inputs::{Inputs, escaped};
use client_proto::{ClientConfig, ConfigFault, SubjectFault, Url, read_config, subject_of};
use std::alloc::{AllocError, Global};

/// `client FILE`: what the client's file says, or its first fault.
pub(crate) fn client(alloc: Global, inputs: &Inputs) -> Result<String, AllocError> {
    match read_config(alloc, inputs.bytes(0)) {
        Ok(config) => told_client(alloc, &config),
        Err(fault) => told_fault(alloc, fault),
    }
}

pub(crate) fn told_fault(alloc: Global, fault: ConfigFault) -> Result<String, AllocError> {
    match fault {
        ConfigFault::Json => "json".to_owned(alloc),
        ConfigFault::Field(member) => {
            let name = member.name();
            format!(in alloc; "field {name}")
        }
        ConfigFault::Tls(member) => {
            let name = member.name();
            format!(in alloc; "tls {name}")
        }
        ConfigFault::Memory => Err(AllocError),
    }
}

fn told_client(alloc: Global, config: &ClientConfig) -> Result<String, AllocError> {
    let audience = config.audience.print(alloc)?;
    let audience = audience.as_str();
    let token_type = config.token_type.as_str();
    let token = told_url(alloc, &config.token)?;
    let token = token.as_str();
    let file = escaped(alloc, config.file.as_str().as_bytes())?;
    let file = file.as_str();
    let field = told_text(alloc, &config.field)?;
    let field = field.as_str();
    let account = told_account(alloc, &config.account)?;
    let account = account.as_str();
    format!(in alloc; "{audience} {token_type} {token} file {file} field {field} account {account}")
}

fn told_url(alloc: Global, url: &Url) -> Result<String, AllocError> {
    let host = url.host.as_str();
    let path = url.path.as_str();
    match url.port {
        None => format!(in alloc; "{host} {path}"),
        Some(port) => format!(in alloc; "{host} {port} {path}"),
    }
}

fn told_account(alloc: Global, url: &Option<Url>) -> Result<String, AllocError> {
    match url {
        None => "-".to_owned(alloc),
        Some(url) => told_url(alloc, url),
    }
}

fn told_text(alloc: Global, text: &Option<Text>) -> Result<String, AllocError> {
    match text {
        None => "-".to_owned(alloc),
        Some(text) => escaped(alloc, text.as_str().as_bytes()),
    }
}

/// `subject CLIENT FILE`: the subject token that the credential file has under the client's file.
pub(crate) fn subject(alloc: Global, inputs: &Inputs) -> Result<String, AllocError> {
    match read_config(alloc, inputs.bytes(0)) {
        Ok(config) => told_subject(alloc, &config, inputs.bytes(1)),
        Err(fault) => told_fault(alloc, fault),
    }
}

fn told_subject(alloc: Global, config: &ClientConfig, bytes: &[u8]) -> Result<String, AllocError> {
    match subject_of(alloc, config, bytes) {
        Ok(subject) => {
            let subject = subject.as_str();
            format!(in alloc; "subject {subject}")
        }
        Err(SubjectFault::Bad) => "bad".to_owned(alloc),
        Err(SubjectFault::Memory) => Err(AllocError),
    }
}
