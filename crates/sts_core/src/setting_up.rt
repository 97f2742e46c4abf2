ghost use Rattle.std.specs.Prelude.{IfOk};
ghost use Rattle.service_config.specs.Formed.{IsFormedConfig};
ghost use Rattle.sts_core.specs.State.{IsSetUp};

use crate::Setup;
use links::start;
use service_config::Config;
use std::alloc::{AllocError, Global};

/// Sets up a configuration, before a disk is looked at.
pub fn set_up(alloc: Global, config: &Config) -> Result<Setup, AllocError>
    requires formed { IsFormedConfig config.now }
    ensures { IfOk result (λ setup. IsSetUp setup config.now) }
{
    let admin = config.admin.copy(alloc)?;
    let gate = config.gate.copy(alloc)?;
    match start(alloc, config) {
        Ok(state) => Ok(Setup { admin, gate, state }),
        Err(AllocError) => {
            drop(admin);
            drop(gate);
            Err(AllocError)
        }
    }
}
