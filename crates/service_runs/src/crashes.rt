use crate::service::{opened_on, run};
use case_inputs::Inputs;
use std::alloc::{AllocError, Global};
use sts_serve::run_script;
use wif_base::{MemDisk, MemSink, MemSource};

/// `crash FIRST END BEFORE FRAME`: behind the frames BEFORE, how the run of FRAME ends whose disk fails at its call of that number, for
/// each number from FIRST on that is below END, and how many entries and links are found over what a crash then leaves, the pending
/// bytes being 00, 01 and FF.
pub(crate) fn crash(alloc: Global, inputs: &Inputs) -> Result<String, AllocError> {
    let Some(bytes) = journal_behind(alloc, inputs.bytes(2))? else {
        return "no service".to_owned(alloc);
    };
    let mut told = String::new(alloc);
    for number in inputs.number(0)..inputs.number(1) {
        let crash = crash_at(alloc, &bytes, number, inputs.bytes(3))?;
        told.push_str(crash.as_str())?;
    }
    Ok(told)
}

// The journal behind the frames.
fn journal_behind(alloc: Global, frames: &[u8]) -> Result<Option<Vec<u8>>, AllocError> {
    let mut output = MemSink::new(Vec::with_capacity(alloc, 65536)?, Vec::new(alloc));
    let Some((sts, _)) = run(alloc, frames, &mut output)? else {
        return Ok(None);
    };
    let disk = sts.close();
    Ok(Some(disk.image(alloc, &[], u64::MAX)?))
}

// How the run ends over a disk that fails at the call, and what is found behind a crash.
fn crash_at(alloc: Global, bytes: &[u8], number: u64, frame: &[u8]) -> Result<String, AllocError> {
    let mut input = MemSource::new(frame.to_vec(alloc)?, Vec::new(alloc));
    let mut output = MemSink::new(Vec::with_capacity(alloc, 65536)?, Vec::new(alloc));
    let mut fail = Vec::new(alloc);
    fail.push(number)?;
    let disk = MemDisk::new(alloc, bytes, 262_144, 64, fail)?;
    let Some(mut sts) = opened_on(alloc, disk)? else {
        return format!(in alloc; "{number} no service. ");
    };
    let end = run_script(alloc, &mut sts, &mut input, &mut output);
    let disk = sts.close();
    let [zero, one, ones] = [
        found(alloc, &disk, 0x00)?,
        found(alloc, &disk, 0x01)?,
        found(alloc, &disk, 0xFF)?,
    ];
    format!(in alloc; "{number} {end:?}: {zero}, {one}, {ones}. ")
}

// How many entries and links the service finds that is opened over what a crash may have left of the disk.
fn found(alloc: Global, disk: &MemDisk, pending: u8) -> Result<String, AllocError> {
    let image = disk.image(alloc, &[pending], u64::MAX)?;
    let disk = MemDisk::new(alloc, &image, 0, 64, Vec::new(alloc))?;
    let Some(sts) = opened_on(alloc, disk)? else {
        return "none".to_owned(alloc);
    };
    let entries = sts.state().entry_count();
    let links = sts.state().link_count();
    drop(sts.close());
    format!(in alloc; "{entries} {links}")
}
