use allow_policy::ScopeSet;
use case_inputs::Inputs;
use json_text::read_document;
use service_config::{ConfigError, read_service_config};
use service_view::Command;
use std::alloc::{AllocError, Global};
use sts_admin::{CommandFault, read_command};
use wif_base::{Route, route_of};

fn shown(command: &Command) -> &'static str {
    match command {
        Command::Pool { disabled: true, .. } => "put disabled pool",
        Command::Pool { .. } => "put pool",
        Command::Provider(_) => "put provider",
        Command::Account { disabled: true, .. } => "put disabled account",
        Command::Account { .. } => "put account",
        Command::Role { .. } => "put role",
        Command::Scope {
            permissions: ScopeSet::All,
            ..
        } => "put scope of all",
        Command::Scope { .. } => "put scope",
        Command::Policy { .. } => "put policy",
    }
}

/// `command JSON`: what the command puts, or the member at fault.
pub(crate) fn command(alloc: Global, inputs: &Inputs) -> Result<String, AllocError> {
    let Ok(json) = read_document(alloc, inputs.bytes(0)) else {
        return "no JSON".to_owned(alloc);
    };
    match read_command(alloc, &json) {
        Ok(command) => shown(&command).to_owned(alloc),
        Err(CommandFault::Kind) => "kind".to_owned(alloc),
        Err(CommandFault::Field(member)) => member.name().to_owned(alloc),
        Err(CommandFault::Expression(member)) => {
            let name = member.name();
            format!(in alloc; "expression {name}")
        }
        Err(CommandFault::Memory) => Err(AllocError),
    }
}

/// `config JSON`: whether it is a configuration.
pub(crate) fn config(alloc: Global, inputs: &Inputs) -> Result<String, AllocError> {
    match read_service_config(alloc, inputs.bytes(0)) {
        Ok(_) => "yes".to_owned(alloc),
        Err(ConfigError::Form) => "no".to_owned(alloc),
        Err(ConfigError::Memory) => Err(AllocError),
    }
}

/// `route PATH`: the route of a path.
pub(crate) fn route(alloc: Global, inputs: &Inputs) -> Result<String, AllocError> {
    match route_of(alloc, inputs.text(0))? {
        Some(Route::Token) => "token".to_owned(alloc),
        Some(Route::Introspect) => "introspect".to_owned(alloc),
        Some(Route::Check) => "check".to_owned(alloc),
        Some(Route::Admin) => "admin".to_owned(alloc),
        Some(Route::Generate { account }) => {
            let account = account.as_str();
            format!(in alloc; "generate {account}")
        }
        None => "none".to_owned(alloc),
    }
}
