ghost use Rattle.std.specs.Prelude.{◌≡◌, [], IfOk};
ghost use Rattle.service_config.specs.Formed.{IsFormedConfig};
ghost use Rattle.sts_core.specs.State.{Stands};
ghost use Rattle.generated_work.specs.Setting.{run_config as config_of_run};

use base_types::{Bytes, Text};
use service_config::{Config, Key};
use service_journal::{
    OpenFault, a_file_stands_for_one_journal, a_file_that_is_refused_stands_for_no_journal,
    journals_go_on_with_what_fits,
};
use std::alloc::{AllocError, Global};
use sts_core::Sts;
use wif_base::MemDisk;

const SERVICE_KEY: &[u8] = b"SSSSSSSSSSSSSSSSSSSSSSSSSSSSSSSS";

const EMPTY_JOURNAL: &[u8] = b"WIFJ0001\0";

// Of 500 rounds at most 1,004 entries come, with less than 1,024 bytes each.
const JOURNAL_ROOM: usize = 1_048_576;

// An entry takes two writes and two syncs.
const CALL_ROOM: usize = 8192;

/// The moment at which a run starts.
pub(crate) const START: u64 = 1_700_000_000;

/// The configuration of a run.
#[tactic(auto, unfolding(crate::specs::Setting::run_config))]
pub(crate) fn run_config(alloc: Global) -> Result<Config, AllocError>
    ensures config { IfOk result (λ config. config ≡ config_of_run) }
    ensures formed { IfOk result IsFormedConfig }
{
    let issuer = Text::copy_of(alloc, "https://gen.example")?;
    let admin = Text::copy_of(alloc, "gen-admin-secret-1")?;
    let gate = Text::copy_of(alloc, "gen-gate-secret-01")?;
    let key = Bytes::copy_of(alloc, SERVICE_KEY)?;
    Ok(Config {
        issuer,
        key: Key::new(key).unwrap(),
        admin,
        gate,
        start: None,
    })
}

/// The service of a run over an empty journal in memory, with room for all that 500 rounds record.
pub(crate) fn start_service(alloc: Global, config: &Config) -> Result<Sts<MemDisk>, AllocError>
    requires formed { IsFormedConfig config.now }
    ensures { IfOk result (λ sts. Stands sts config.now []) }
{
    let disk = MemDisk::new(
        alloc,
        EMPTY_JOURNAL,
        JOURNAL_ROOM,
        CALL_ROOM,
        Vec::new(alloc),
    )?;
    a_file_stands_for_one_journal();
    a_file_that_is_refused_stands_for_no_journal();
    journals_go_on_with_what_fits();
    match Sts::open(alloc, disk, config) {
        Ok(sts) => Ok(sts),
        Err(OpenFault::Memory) | Err(OpenFault::Fault) => Err(AllocError),
        Err(OpenFault::Refused { .. }) => unreachable!(),
    }
}
