use crate::files::told_fault;
use case_inputs::{Inputs, escaped};
use client_link::Target;
use client_proto::{
    ClientConfig, ReadReply, account_request, exchange_request, read_config, read_reply,
};
use std::alloc::{AllocError, Global};

/// `exchange CLIENT SUBJECT`: the request that exchanges a subject token.
pub(crate) fn exchange(alloc: Global, inputs: &Inputs) -> Result<String, AllocError> {
    match read_config(alloc, inputs.bytes(0)) {
        Ok(config) => exchange_text(alloc, &config, inputs.text(1)),
        Err(fault) => told_fault(alloc, fault),
    }
}

fn exchange_text(
    alloc: Global,
    config: &ClientConfig,
    subject: &str,
) -> Result<String, AllocError> {
    let request = exchange_request(alloc, config, subject)?;
    escaped(alloc, request.as_slice())
}

/// `account CLIENT TOKEN`: the request that asks for a token of the service account.
pub(crate) fn account(alloc: Global, inputs: &Inputs) -> Result<String, AllocError> {
    match read_config(alloc, inputs.bytes(0)) {
        Ok(config) => account_text(alloc, &config, inputs.text(1)),
        Err(fault) => told_fault(alloc, fault),
    }
}

fn account_text(alloc: Global, config: &ClientConfig, token: &str) -> Result<String, AllocError> {
    let Some(url) = &config.account else {
        return "no account".to_owned(alloc);
    };
    let request = account_request(alloc, url, token)?;
    escaped(alloc, request.as_slice())
}

/// `reply TARGET MOMENT BYTES`: what a reply says to a request that was asked at the moment.
pub(crate) fn reply(alloc: Global, inputs: &Inputs) -> Result<String, AllocError> {
    let target = match inputs.text(0) {
        "token" => Target::Token,
        _ => Target::Account,
    };
    let at = inputs.number(1).min(200_000_000_000);
    match read_reply(alloc, target, at, inputs.bytes(2))? {
        ReadReply::Token { token, exp } => {
            let token = token.as_str();
            format!(in alloc; "token {token} {exp}")
        }
        ReadReply::Refused { status } => format!(in alloc; "refused {status}"),
        ReadReply::Bad => "bad".to_owned(alloc),
    }
}
