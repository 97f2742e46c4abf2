ghost use Rattle.std.specs.Prelude.{◌≡◌, ◌≤◌, ◌⊎◌, length, map, IfOk, IsErrOf};
ghost use Rattle.std.specs.List.{AllByRecursion};
ghost use Rattle.wif_base.specs.Causes.{Rose};
ghost use Rattle.wif_base.specs.Whole.{IsReadWhole};
ghost use Rattle.client_proto.specs.declared.config.ClientConfig.{ClientConfig as Client};
ghost use Rattle.client_top.specs.Runs.{ReadsClient, ReadsMoments, ReadsNoAsks, ReadsNoClient, unready_of as fault_as};
ghost use Rattle.client_top.specs.declared.unready.Unready.TheVariants as unready;

use crate::asks::read_asks;
use crate::moments::moments_by;
use crate::unready::Unready;
use client_proto::{ClientConfig, ConfigFault, read_config};
use std::alloc::{AllocError, Global};
use wif_base::{LAST_MOMENT, ReadEnd, Source, read_whole};

/// The most bytes of a client's file.
const FILE_LIMIT: usize = 65536;
/// The most bytes of an input of the form.
const INPUT_LIMIT: usize = 1_600_000;

/// What a run leases with, and at which moments, by worker.
#[derive(Debug, Drop)]
pub(crate) struct Ready {
    pub client: ClientConfig,
    pub moments: Vec<Vec<u64>>,
}

/// Reads the client's file, and then the input.
pub(crate) fn read_ready<G: Source, I: Source>(
    alloc: Global,
    workers: u32,
    config: &mut G,
    input: &mut I,
) -> Result<Ready, Unready>
    requires { (1 ≤ workers) × (workers ≤ 64) }
    ensures client { IfOk result (λ ready. ReadsClient (G.left config.old) (G.left config.new) ready.client) }
    ensures moments { IfOk result (λ ready. ReadsMoments workers (I.left input.old) (I.left input.new)
        (map (λ list. list.items) ready.moments.items)) }
    ensures few { IfOk result (λ ready. length ready.moments.items ≤ 64) }
    ensures range { IfOk result (λ ready. AllByRecursion (λ list. AllByRecursion (λ at. at ≤ LAST_MOMENT) list.items) ready.moments.items) }
    ensures no_client { IsErrOf result unready.NoClient → ReadsNoClient (G.left config.old) (G.left config.new) }
    ensures no_asks { IsErrOf result unready.NoAsks → ReadsNoAsks workers (I.left input.old) (I.left input.new)
        × ((client : Client) × ReadsClient (G.left config.old) (G.left config.new) client) }
    ensures failed { IsErrOf result unready.Failed
        → Rose (G.faults config.old) (G.faults config.new) ⊎ Rose (I.faults input.old) (I.faults input.new) }
{
    let client = read_client(alloc, config)?;
    match read_moments(alloc, workers, input) {
        Ok(moments) => Ok(Ready { client, moments }),
        Err(end) => {
            drop(client);
            Err(end)
        }
    }
}

fn read_client<G: Source>(alloc: Global, config: &mut G) -> Result<ClientConfig, Unready>
    ensures client { IfOk result (ReadsClient (G.left config.old) (G.left config.new)) }
    ensures no_client { IsErrOf result unready.NoClient → ReadsNoClient (G.left config.old) (G.left config.new) }
    ensures no_asks { IsErrOf result unready.NoAsks → ⊥ }
    ensures failed { IsErrOf result unready.Failed → Rose (G.faults config.old) (G.faults config.new) }
{
    let bytes = read_limited(alloc, config, FILE_LIMIT)?;
    if bytes.len() > FILE_LIMIT {
        return Err(Unready::NoClient);
    }
    match read_config(alloc, bytes.as_slice()) {
        Ok(client) => Ok(client),
        Err(fault) => Err(unready_of(fault)),
    }
}

fn unready_of(fault: ConfigFault) -> Unready
    ensures { result ≡ fault_as fault }
{
    match fault {
        ConfigFault::Json => Unready::NoClient,
        ConfigFault::Field(_) => Unready::NoClient,
        ConfigFault::Tls(_) => Unready::NoClient,
        ConfigFault::Memory => Unready::Memory,
    }
}

// The moments of the input, by worker.
fn read_moments<I: Source>(
    alloc: Global,
    workers: u32,
    input: &mut I,
) -> Result<Vec<Vec<u64>>, Unready>
    requires { (1 ≤ workers) × (workers ≤ 64) }
    ensures moments { IfOk result (λ lists. ReadsMoments workers (I.left input.old) (I.left input.new)
        (map (λ list. list.items) lists.items)) }
    ensures no_client { IsErrOf result unready.NoClient → ⊥ }
    ensures no_asks { IsErrOf result unready.NoAsks → ReadsNoAsks workers (I.left input.old) (I.left input.new) }
    ensures failed { IsErrOf result unready.Failed → Rose (I.faults input.old) (I.faults input.new) }
{
    let bytes = read_limited(alloc, input, INPUT_LIMIT)?;
    let asks = read_asks(alloc, bytes.as_slice(), workers)?;
    match moments_by(alloc, asks.as_slice(), workers) {
        Ok(lists) => Ok(lists),
        Err(AllocError) => Err(Unready::Memory),
    }
}

// Reads a source to its end, or past so many bytes.
fn read_limited<S: Source>(alloc: Global, source: &mut S, most: usize) -> Result<Vec<u8>, Unready>
    ensures read { IfOk result (λ bytes. IsReadWhole most (S.left source.old) (S.left source.new) bytes.items) }
    ensures no_client { IsErrOf result unready.NoClient → ⊥ }
    ensures no_asks { IsErrOf result unready.NoAsks → ⊥ }
    ensures failed { IsErrOf result unready.Failed → Rose (S.faults source.old) (S.faults source.new) }
{
    match read_whole(alloc, source, most) {
        Ok(bytes) => Ok(bytes),
        Err(ReadEnd::Failed) => Err(Unready::Failed),
        Err(ReadEnd::Memory) => Err(Unready::Memory),
    }
}
