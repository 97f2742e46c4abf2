use crate::Key;
use base_types::Text;
use iam_names::{Audience, PoolName, ProviderId};
use std::alloc::{AllocError, Global};

/// The service's configuration.
#[derive(Debug, Drop)]
pub struct Config {
    /// The `iss` of the tokens that the service issues, 1 to 256 bytes.
    pub issuer: Text,
    /// The key that signs them (HS256), 32 to 128 bytes.
    pub key: Key,
    /// The bearer of admin commands, 16 to 256 visible ASCII.
    pub admin: Text,
    /// The bearer of checks and introspections, 16 to 256 visible ASCII.
    pub gate: Text,
    /// A provider that is there from the start, enabled, in an enabled pool.
    pub start: Option<StartProvider>,
}

/// A provider of subject tokens that is there from the start.
#[derive(Debug, Drop)]
pub struct StartProvider {
    pub pool: PoolName,
    pub id: ProviderId,
    /// The `iss` of its tokens, 1 to 256 bytes.
    pub issuer: Text,
    /// The key that they are signed with (HS256), 32 to 128 bytes.
    pub key: Key,
}

/// Why bytes gave no configuration.
#[derive(Clone, Copy, Debug, PartialEq, Eq)]
pub enum ConfigError {
    Form,
    Memory,
}

impl From<AllocError> for ConfigError {
    ghost use Rattle.std.specs.Prelude.{◌≡◌};
    ghost use Rattle.service_config.specs.declared.config.ConfigError.TheVariants.{Memory};

    ghost from_gives = { λ _ e. e ≡ Memory };

    fn from(_: AllocError) -> Self {
        ConfigError::Memory
    }
}

impl StartProvider {
    ghost use Rattle.std.specs.Prelude.{◌≡◌, IfOk};
    ghost use Rattle.service_config.specs.Configuration.{provider_name};

    /// The provider's full name.
    pub fn name(&self, alloc: Global) -> Result<Audience, AllocError>
        ensures { IfOk result (λ name. name ≡ provider_name self.now) }
    {
        Ok(Audience {
            pool: self.pool.copy(alloc)?,
            provider: self.id.copy(alloc)?,
        })
    }

    /// The same once more.
    pub fn copy(&self, alloc: Global) -> Result<Self, AllocError>
        ensures { IfOk result (λ provider. provider ≡ self.now) }
    {
        Ok(StartProvider {
            pool: self.pool.copy(alloc)?,
            id: self.id.copy(alloc)?,
            issuer: self.issuer.copy(alloc)?,
            key: self.key.copy(alloc)?,
        })
    }
}

impl Config {
    ghost use Rattle.std.specs.Prelude.{◌≡◌, IfOk};

    /// The same once more.
    pub fn copy(&self, alloc: Global) -> Result<Self, AllocError>
        ensures { IfOk result (λ config. config ≡ self.now) }
    {
        let start = match &self.start {
            Some(provider) => Some(provider.copy(alloc)?),
            None => None,
        };
        Ok(Config {
            issuer: self.issuer.copy(alloc)?,
            key: self.key.copy(alloc)?,
            admin: self.admin.copy(alloc)?,
            gate: self.gate.copy(alloc)?,
            start,
        })
    }
}
