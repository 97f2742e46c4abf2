ghost use Rattle.std.specs.Prelude.{◌≡◌, ◌≢◌, ◌≤◌, ◌⊎◌, ℕ, List, None, Some, length, map, IfErr};
ghost use Rattle.std.specs.List.{AllByRecursion};
ghost use Rattle.wif_base.specs.Causes.{Rose};
ghost use Rattle.client_proto.specs.declared.config.ClientConfig.{ClientConfig as Client};
ghost use Rattle.client_top.specs.Asks.{AreAsks, NoAsks};
ghost use Rattle.client_top.specs.Runs.{IsClientFile, NoClientFile, ReadsNoAsks, ReadsNoClient, Reports, RunReports, WritesPart, WritesReport};
ghost use Rattle.client_top.specs.Words.{run_of as of_words, texts};
ghost use Rattle.client_top.specs.declared.asks.Ask.{Ask};
ghost use Rattle.client_top.specs.declared.unready.Unready.TheVariants as unready;
ghost use Rattle.client_top.specs.declared.words.Run.{Run as Asked};

use crate::gate::Gate;
use crate::leases::report_of;
use crate::ready::{Ready, read_ready};
use crate::unready::Unready;
use crate::words::{Run, run_of};
use client_link::Link;
use std::alloc::{AllocError, Global};
use std::sync::Wait;
use std::thread::Threads;
use wif_base::{Failed, LAST_MOMENT, Sink, Source, write_text};

/// Does all that the program `wif_client` does, and answers its status: 0 where the leases of the workers and the renewals were told, 1
/// at a client's file that is none, 2 at words that are no run, 3 where reading failed, 4 where writing failed, 7 for want of memory, 8 at
/// an input that isn't of its form.
pub fn client_run<
    G: Source,
    I: Source,
    O: Sink,
    L: Link + Send,
    K: Gate + Sync,
    R: Threads + Wait + Sync,
>(
    rt: &R,
    alloc: Global,
    words: &[String],
    config: &mut G,
    input: &mut I,
    output: &mut O,
    link: &mut L,
    gate: &K,
) -> u8
    // What a reader asks first: at 0 the output is the report on the leases of this run, and at 4 a proper part of it.
    ensures done { result ≡ 0 → (run : Asked) × (of_words (texts words.now) ≡ Some run)
        × WritesReport (O.taken output.old) (O.taken output.new) (RunReports run (G.left config.old) (G.left config.new)
        (I.left input.old) (I.left input.new) (L.calls link.old) (L.calls link.new) (L.faults link.old) (L.faults link.new)) }
    ensures partly { result ≡ 4 → (run : Asked) × (of_words (texts words.now) ≡ Some run)
        × WritesPart (O.taken output.old) (O.taken output.new) (RunReports run (G.left config.old) (G.left config.new)
        (I.left input.old) (I.left input.new) (L.calls link.old) (L.calls link.new) (L.faults link.old) (L.faults link.new)) }

    // With words, client's file and input of their forms and no fault of these all is told, unless memory runs out.
    ensures complete { (run : Asked) → of_words (texts words.now) ≡ Some run
        → (file : List ℕ) (client : Client) → G.left config.old ≡ Some file → IsClientFile file client
        → (bytes : List ℕ) (asks : List Ask) → I.left input.old ≡ Some bytes → AreAsks run.workers bytes asks
        → (Rose (G.faults config.old) (G.faults config.new) → ⊥)
        → (Rose (I.faults input.old) (I.faults input.new) → ⊥)
        → (Rose (O.faults output.old) (O.faults output.new) → ⊥)
        → (result ≡ 0) ⊎ (result ≡ 7) }

    // The causes of the other statuses.
    ensures words { result ≡ 2 → of_words (texts words.now) ≡ None }
    ensures other_words { of_words (texts words.now) ≡ None → ((result ≡ 2) ⊎ (result ≡ 7))
        × (config.new ≡ config.old) × (input.new ≡ input.old) × (output.new ≡ output.old) × (link.new ≡ link.old) }
    ensures configuration { result ≡ 1 → ReadsNoClient (G.left config.old) (G.left config.new) }
    ensures configuration_only { (run : Asked) → of_words (texts words.now) ≡ Some run
        → (file : List ℕ) → G.left config.old ≡ Some file → NoClientFile file → (result ≡ 1) ⊎ ((result ≡ 3) ⊎ (result ≡ 7)) }
    ensures malformed { result ≡ 8 → (run : Asked) × (of_words (texts words.now) ≡ Some run)
        × ReadsNoAsks run.workers (I.left input.old) (I.left input.new) }
    ensures malformed_only { (run : Asked) → of_words (texts words.now) ≡ Some run
        → (bytes : List ℕ) → I.left input.old ≡ Some bytes → NoAsks run.workers bytes → result ≢ 0 }
    ensures read_fault { result ≡ 3 → Rose (G.faults config.old) (G.faults config.new) ⊎ Rose (I.faults input.old) (I.faults input.new) }
    ensures write_fault { result ≡ 4 → Rose (O.faults output.old) (O.faults output.new) }

    // The link is asked, and anything written, only once all was read.
    ensures untouched { (result ≢ 0) → (result ≢ 4) → (result ≢ 7) → (output.new ≡ output.old) × (link.new ≡ link.old) }
    ensures memory { result ≡ 7 → output.new ≡ output.old }
    ensures no_other { (result ≢ 5) × (result ≢ 6) × (result ≤ 8) }
{
    match run_of(alloc, words) {
        Ok(Some(run)) => run_as(rt, alloc, run, config, input, output, link, gate),
        Ok(None) => 2,
        Err(AllocError) => 7,
    }
}

// The client's file first, then the input, then the leases.
fn run_as<G: Source, I: Source, O: Sink, L: Link + Send, K: Gate + Sync, R: Threads + Wait + Sync>(
    rt: &R,
    alloc: Global,
    run: Run,
    config: &mut G,
    input: &mut I,
    output: &mut O,
    link: &mut L,
    gate: &K,
) -> u8
    requires { (1 ≤ run.workers) × (run.workers ≤ 64) × (run.margin ≤ 3600) }
    ensures done { result ≡ 0
        → WritesReport (O.taken output.old) (O.taken output.new) (RunReports run (G.left config.old) (G.left config.new)
        (I.left input.old) (I.left input.new) (L.calls link.old) (L.calls link.new) (L.faults link.old) (L.faults link.new)) }
    ensures partly { result ≡ 4
        → WritesPart (O.taken output.old) (O.taken output.new) (RunReports run (G.left config.old) (G.left config.new)
        (I.left input.old) (I.left input.new) (L.calls link.old) (L.calls link.new) (L.faults link.old) (L.faults link.new)) }
    ensures complete { (file : List ℕ) (client : Client) → G.left config.old ≡ Some file → IsClientFile file client
        → (bytes : List ℕ) (asks : List Ask) → I.left input.old ≡ Some bytes → AreAsks run.workers bytes asks
        → (Rose (G.faults config.old) (G.faults config.new) → ⊥)
        → (Rose (I.faults input.old) (I.faults input.new) → ⊥)
        → (Rose (O.faults output.old) (O.faults output.new) → ⊥)
        → (result ≡ 0) ⊎ (result ≡ 7) }
    ensures configuration { result ≡ 1 → ReadsNoClient (G.left config.old) (G.left config.new) }
    ensures configuration_only { (file : List ℕ) → G.left config.old ≡ Some file → NoClientFile file
        → (result ≡ 1) ⊎ ((result ≡ 3) ⊎ (result ≡ 7)) }
    ensures malformed { result ≡ 8 → ReadsNoAsks run.workers (I.left input.old) (I.left input.new) }
    ensures malformed_only { (bytes : List ℕ) → I.left input.old ≡ Some bytes → NoAsks run.workers bytes → result ≢ 0 }
    ensures read_fault { result ≡ 3 → Rose (G.faults config.old) (G.faults config.new) ⊎ Rose (I.faults input.old) (I.faults input.new) }
    ensures write_fault { result ≡ 4 → Rose (O.faults output.old) (O.faults output.new) }
    ensures untouched { (result ≢ 0) → (result ≢ 4) → (result ≢ 7) → (output.new ≡ output.old) × (link.new ≡ link.old) }
    ensures memory { result ≡ 7 → output.new ≡ output.old }
    ensures no_other { (result ≢ 2) × (result ≢ 5) × (result ≢ 6) × (result ≤ 8) }
{
    match read_ready(alloc, run.workers, config, input) {
        Ok(ready) => tell(rt, alloc, run.margin, ready, output, link, gate),
        Err(end) => status_of(end),
    }
}

fn status_of(end: Unready) -> u8
    ensures configuration { result ≡ 1 → end ≡ unready.NoClient }
    ensures failed { result ≡ 3 → end ≡ unready.Failed }
    ensures malformed { result ≡ 8 → end ≡ unready.NoAsks }
    ensures no_other { (result ≡ 1) ⊎ ((result ≡ 3) ⊎ ((result ≡ 7) ⊎ (result ≡ 8))) }
{
    match end {
        Unready::NoClient => 1,
        Unready::Failed => 3,
        Unready::NoAsks => 8,
        Unready::Memory => 7,
    }
}

// Leases, and writes the report on it.
fn tell<O: Sink, L: Link + Send, K: Gate + Sync, R: Threads + Wait + Sync>(
    rt: &R,
    alloc: Global,
    margin: u64,
    ready: Ready,
    output: &mut O,
    link: &mut L,
    gate: &K,
) -> u8
    requires margin { margin ≤ 3600 }
    requires few { length ready.moments.items ≤ 64 }
    requires moments { AllByRecursion (λ list. AllByRecursion (λ at. at ≤ LAST_MOMENT) list.items) ready.moments.items }
    ensures done { result ≡ 0 → WritesReport (O.taken output.old) (O.taken output.new)
        (Reports margin ready.client (map (λ list. list.items) ready.moments.items)
        (L.calls link.old) (L.calls link.new) (L.faults link.old) (L.faults link.new)) }
    ensures partly { result ≡ 4 → WritesPart (O.taken output.old) (O.taken output.new)
        (Reports margin ready.client (map (λ list. list.items) ready.moments.items)
        (L.calls link.old) (L.calls link.new) (L.faults link.old) (L.faults link.new)) }
    ensures write_fault { result ≡ 4 → Rose (O.faults output.old) (O.faults output.new) }
    ensures memory { result ≡ 7 → output.new ≡ output.old }
    ensures no_other { (result ≡ 0) ⊎ ((result ≡ 4) ⊎ (result ≡ 7)) }
{
    let Ok(text) = report_of(rt, alloc, margin, ready, link, gate) else {
        return 7;
    };
    match write_text(output, text.as_bytes()) {
        Ok(()) => 0,
        Err(Failed) => 4,
    }
}
