ghost use Rattle.service_config.specs.Formed.{IsFormedConfig};

use case_inputs::{Inputs, escaped};
use http_serve::serve_connection;
use iam_names::{Permission, Resource};
use links::{State, admits, chain_of};
use service_config::{Config, read_service_config};
use service_journal::OpenFault;
use std::alloc::{AllocError, Global};
use sts_core::Sts;
use sts_serve::{Found, Served, read_frame, run_script};
use wif_base::{MemClock, MemDisk, MemSink, MemSource};

const CONFIG: &[u8] =
    br#"{"issuer":"https://sts.example","key":"U1NTU1NTU1NTU1NTU1NTU1NTU1NTU1NTU1NTU1NTU1M","admin":"admin-secret-000001","gate":"gate-secret-0000001"}"#;

const EMPTY_JOURNAL: &[u8] = b"WIFJ0001\0";

/// `frame BYTES`: the size of the frame at their front, or whether one can become of them.
pub(crate) fn frame(alloc: Global, inputs: &Inputs) -> Result<String, AllocError> {
    match read_frame(alloc, inputs.bytes(0))? {
        Found::Whole(_, size) => format!(in alloc; "whole {size}"),
        Found::Part => "part".to_owned(alloc),
        Found::Never => "never".to_owned(alloc),
    }
}

/// `script FRAMES`: how the run ends, and its output.
pub(crate) fn script(alloc: Global, inputs: &Inputs) -> Result<String, AllocError> {
    let mut output = MemSink::new(Vec::with_capacity(alloc, 65536)?, Vec::new(alloc));
    let Some((sts, end)) = run(alloc, inputs.bytes(0), &mut output)? else {
        return "no service".to_owned(alloc);
    };
    drop(sts.close());
    let written = escaped(alloc, output.bytes.as_slice())?;
    format!(in alloc; "{end:?} {written}")
}

/// `connection MOMENTS BYTES`: how the run over a connection ends whose clock gives these moments, and its output.
pub(crate) fn connection(alloc: Global, inputs: &Inputs) -> Result<String, AllocError> {
    let mut input = MemSource::new(inputs.bytes(1).to_vec(alloc)?, Vec::new(alloc));
    let mut output = MemSink::new(Vec::with_capacity(alloc, 65536)?, Vec::new(alloc));
    let mut clock = MemClock::new(moments(alloc, inputs.text(0))?, Vec::new(alloc));
    let Some(mut sts) = opened(alloc)? else {
        return "no service".to_owned(alloc);
    };
    let end = serve_connection(alloc, &mut sts, &mut input, &mut output, &mut clock);
    drop(sts.close());
    let written = escaped(alloc, output.bytes.as_slice())?;
    format!(in alloc; "{end:?} {written}")
}

// The moments of a text, at most 200,000,000,000.
fn moments(alloc: Global, text: &str) -> Result<Vec<u64>, AllocError> {
    let mut moments = Vec::new(alloc);
    for word in text.split_ascii_whitespace() {
        if let Ok(moment) = word.parse::<u64>() {
            moments.push(moment.min(200_000_000_000))?;
        }
    }
    Ok(moments)
}

/// `chains FRAMES`: the numbers of the links that each recorded link goes back to, behind the frames.
pub(crate) fn chains(alloc: Global, inputs: &Inputs) -> Result<String, AllocError> {
    let mut output = MemSink::new(Vec::with_capacity(alloc, 65536)?, Vec::new(alloc));
    let Some((sts, _)) = run(alloc, inputs.bytes(0), &mut output)? else {
        return "no service".to_owned(alloc);
    };
    let told = chains_in(alloc, sts.state());
    drop(sts.close());
    told
}

fn chains_in(alloc: Global, state: &State) -> Result<String, AllocError> {
    let mut told = String::new(alloc);
    for number in 0..state.link_count() {
        let chain = chain_of(alloc, state, number)?;
        told.push_str(format!(in alloc; "{chain:?}")?.as_str())?;
    }
    Ok(told)
}

/// `admits PERMISSION RESOURCE MOMENT FRAMES`: whether each recorded link admits the permission on the resource then, behind the
/// frames.
pub(crate) fn admitted(alloc: Global, inputs: &Inputs) -> Result<String, AllocError> {
    let mut output = MemSink::new(Vec::with_capacity(alloc, 65536)?, Vec::new(alloc));
    let Some((sts, _)) = run(alloc, inputs.bytes(3), &mut output)? else {
        return "no service".to_owned(alloc);
    };
    let told = admitted_in(alloc, sts.state(), inputs);
    drop(sts.close());
    told
}

fn admitted_in(alloc: Global, state: &State, inputs: &Inputs) -> Result<String, AllocError> {
    let Ok(permission) = Permission::read(alloc, inputs.text(0)) else {
        return "no permission".to_owned(alloc);
    };
    let Ok(resource) = Resource::read(alloc, inputs.text(1)) else {
        return "no resource".to_owned(alloc);
    };
    let mut told = String::new(alloc);
    for number in 0..state.link_count() {
        let yes = admits(
            alloc,
            state,
            number,
            &permission,
            &resource,
            inputs.number(2),
        )?;
        told.push_str(if yes { "yes " } else { "no " })?;
    }
    Ok(told)
}

/// Runs the frames over the service of the cases.
pub(crate) fn run(
    alloc: Global,
    frames: &[u8],
    output: &mut MemSink,
) -> Result<Option<(Sts<MemDisk>, Served)>, AllocError> {
    let mut input = MemSource::new(frames.to_vec(alloc)?, Vec::new(alloc));
    let Some(mut sts) = opened(alloc)? else {
        return Ok(None);
    };
    let end = run_script(alloc, &mut sts, &mut input, output);
    Ok(Some((sts, end)))
}

// The service over an empty journal.
fn opened(alloc: Global) -> Result<Option<Sts<MemDisk>>, AllocError> {
    let disk = MemDisk::new(alloc, EMPTY_JOURNAL, 262_144, 4096, Vec::new(alloc))?;
    opened_on(alloc, disk)
}

/// The service over a disk, under the configuration of the cases.
pub(crate) fn opened_on(alloc: Global, disk: MemDisk) -> Result<Option<Sts<MemDisk>>, AllocError> {
    match read_service_config(alloc, CONFIG) {
        Ok(config) => opened_under(alloc, &config, disk),
        Err(_) => {
            drop(disk);
            Ok(None)
        }
    }
}

fn opened_under(
    alloc: Global,
    config: &Config,
    disk: MemDisk,
) -> Result<Option<Sts<MemDisk>>, AllocError>
    requires { IsFormedConfig config.now }
{
    match Sts::open(alloc, disk, config) {
        Ok(sts) => Ok(Some(sts)),
        Err(OpenFault::Memory) => Err(AllocError),
        Err(OpenFault::Fault) | Err(OpenFault::Refused { .. }) => Ok(None),
    }
}
