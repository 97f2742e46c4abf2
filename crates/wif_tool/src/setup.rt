ghost use Rattle.std.specs.Prelude.{◌≡◌, ◌≤◌, IfOk, IsErrOf, length, vec_len, ◌<◌, ◌-◌};
ghost use Rattle.wif_base.specs.Causes.{Rose};
ghost use Rattle.service_config.specs.declared.config.Config.{Config as Configuration};
ghost use Rattle.service_config.specs.Formed.{IsFormedConfig};
ghost use Rattle.sts_core.specs.State.{IsSetUp};
ghost use Rattle.wif_tool.specs.Status.{ConfigRead, Configured, NotConfigured};

use service_config::{Config, ConfigError, read_service_config};
use std::alloc::{AllocError, Global};
use sts_core::{Setup, set_up};
use wif_base::{ReadEnd, Source, read_whole};

const CONFIG_LIMIT: usize = 65536;

/// Why there is no configuration.
#[derive(Clone, Copy, Debug, PartialEq, Eq)]
pub(crate) enum SetupEnd {
    Failed,
    Form,
    Memory,
}

/// Reads the configuration, and sets it up.
pub(crate) fn read_setup<G: Source>(alloc: Global, source: &mut G) -> Result<Setup, SetupEnd>
    ensures found { IfOk result (λ found. (config : Configuration) × Configured (G.left source.old) (G.left source.new) config × IsSetUp found config) }
    ensures form { IsErrOf result SetupEnd.Form → NotConfigured (G.left source.old) (G.left source.new) }
    ensures failed { IsErrOf result SetupEnd.Failed → Rose (G.faults source.old) (G.faults source.new) }
    ensures count { G.faults source.old ≤ G.faults source.new }
{
    let config = read_config(alloc, source)?;
    let found = set_up(alloc, &config);
    drop(config);
    match found {
        Ok(found) => Ok(found),
        Err(AllocError) => Err(SetupEnd::Memory),
    }
}

fn read_config<G: Source>(alloc: Global, config: &mut G) -> Result<Config, SetupEnd>
    ensures found { IfOk result (Configured (G.left config.old) (G.left config.new)) }
    ensures formed { IfOk result IsFormedConfig }
    ensures form { IsErrOf result SetupEnd.Form → NotConfigured (G.left config.old) (G.left config.new) }
    ensures failed { IsErrOf result SetupEnd.Failed → Rose (G.faults config.old) (G.faults config.new) }
    ensures count { G.faults config.old ≤ G.faults config.new }
{
    let bytes = read_limited(alloc, config)?;
    match read_service_config(alloc, bytes.as_slice()) {
        Ok(setup) => Ok(setup),
        Err(ConfigError::Form) => Err(SetupEnd::Form),
        Err(ConfigError::Memory) => Err(SetupEnd::Memory),
    }
}

// Reads a source to its end, or past the limit of a configuration.
fn read_limited<G: Source>(alloc: Global, source: &mut G) -> Result<Vec<u8>, SetupEnd>
    ensures read { IfOk result (λ bytes. ConfigRead (G.left source.old) (G.left source.new) bytes.items) }
    ensures form { IsErrOf result SetupEnd.Form → ⊥ }
    ensures failed { IsErrOf result SetupEnd.Failed → Rose (G.faults source.old) (G.faults source.new) }
    ensures count { G.faults source.old ≤ G.faults source.new }
{
    match read_whole(alloc, source, CONFIG_LIMIT) {
        Ok(bytes) => Ok(bytes),
        Err(ReadEnd::Failed) => Err(SetupEnd::Failed),
        Err(ReadEnd::Memory) => Err(SetupEnd::Memory),
    }
}
