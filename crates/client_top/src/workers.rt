ghost use Rattle.std.specs.Prelude.{◌≡◌, ℕ, ◌<◌, ◌≤◌, ◌+◌, ◌^◌, ◌++◌, ◌∷◌, [], length, map, All, IfOk, IsTrue, OnErr, OnOk, Ok};
ghost use Rattle.std.specs.List.{AllByRecursion};
ghost use Rattle.shared_renewer.specs.Passes.{NeverFalls};
ghost use Rattle.shared_renewer.specs.Views.{Begins};
ghost use Rattle.client_top.specs.Jobs.{AreSameWorkers, HasLent, IsAtStart, IsDone, IsPart, IsReady, IsSameWorker};
ghost use Rattle.client_top.specs.Outcomes.{AreOutcomes, AreOutcomesOf, IsLostBy, IsLostIn, IsOutcome};

use crate::gate::Gate;
use crate::job::Job;
use crate::outcome::{Outcome, outcome_of};
use client_link::Link;
use shared_renewer::{Pass, Renewer};
use std::alloc::{AllocError, Global};
use std::sync::Wait;
use std::thread;
use std::thread::Threads;
use wif_base::LAST_MOMENT;

/// Leases for one worker a list of moments, each worker in a thread of its own, with a pass of its own. It stands at the gate before each
/// lease.
pub fn run_workers<L: Link + Send, K: Gate + Sync, R: Threads + Wait + Sync>(
    rt: &R,
    alloc: Global,
    renewer: &Renewer<L>,
    pass: &mut Pass<L>,
    moments: &[Vec<u64>],
    gate: &K,
) -> Result<Vec<Vec<Outcome>>, AllocError>
    requires table { pass.old.table ≡ renewer.now.table }
    requires shares { length moments.now < pass.old.view.share }
    requires moments { AllByRecursion (λ list. AllByRecursion (λ at. at ≤ LAST_MOMENT) list.items) moments.now }
    ensures table { pass.new.table ≡ pass.old.table }
    ensures share { pass.new.view.share ≡ pass.old.view.share }
    ensures facts { pass.new.view.facts ≡ pass.old.view.facts }
    ensures seen { Begins pass.old.view.seen pass.new.view.seen }
    ensures outcomes { IfOk result (λ lists. AreOutcomes pass.new.view.facts.margin pass.new.view.seen
        (map (λ list. list.items) moments.now) (map (λ list. list.items) lists.items)) }
    ensures rises { NeverFalls pass.old.view pass.new.view }
    ensures lost { IfOk result (λ lists. IsLostBy (map (λ list. list.items) lists.items) pass.old.view pass.new.view) }
{
    let shares = pass.shares();
    prove!(moments.len() < shares as usize);
    let mut jobs = Vec::new(alloc);
    match split_jobs(alloc, renewer, pass, moments, &mut jobs) {
        Ok(()) => {
            run_all(rt, alloc, renewer, gate, &mut jobs);
            join_jobs(alloc, renewer, pass, jobs)
        }
        Err(AllocError) => {
            drop(join_jobs(alloc, renewer, pass, jobs));
            Err(AllocError)
        }
    }
}

// A worker for each list of moments.
fn split_jobs<'m, L: Link>(
    alloc: Global,
    renewer: &Renewer<L>,
    pass: &mut Pass<L>,
    moments: &'m [Vec<u64>],
    jobs: &mut Vec<Job<'m, L>>,
) -> Result<(), AllocError>
    requires table { pass.old.table ≡ renewer.now.table }
    requires shares { length moments.now < pass.old.view.share }
    requires moments { AllByRecursion (λ list. AllByRecursion (λ at. at ≤ LAST_MOMENT) list.items) moments.now }
    requires none { jobs.old.items ≡ [] }
    ensures table { pass.new.table ≡ pass.old.table }
    ensures lent { HasLent pass.old.view pass.new.view (length jobs.new.items) }
    ensures lost { pass.new.view.lost ≡ pass.old.view.lost }
    ensures each { All (IsReady renewer.now.table pass.old.view.facts LAST_MOMENT) jobs.new.items }
    ensures whole { OnOk result (map (λ job. job.moments.now) jobs.new.items ≡ map (λ list. list.items) moments.now) }
{
    for list in moments {
        add_job(alloc, renewer, pass, list.as_slice(), jobs)?;
    }
    Ok(())
}

// A worker more, with a pass of its own. Where memory runs out, the pass is joined back.
fn add_job<'m, L: Link>(
    alloc: Global,
    renewer: &Renewer<L>,
    pass: &mut Pass<L>,
    moments: &'m [u64],
    jobs: &mut Vec<Job<'m, L>>,
) -> Result<(), AllocError>
    requires table { pass.old.table ≡ renewer.now.table }
    requires two { 2 ≤ pass.old.view.share }
    requires moments { AllByRecursion (λ at. at ≤ LAST_MOMENT) moments.now }
    ensures table { pass.new.table ≡ pass.old.table }
    ensures lent { OnOk result (HasLent pass.old.view pass.new.view 1) }
    ensures lost { pass.new.view.lost ≡ pass.old.view.lost }
    ensures added { OnOk result ((job : _) × (jobs.new.items ≡ jobs.old.items ++ job ∷ []) × (job.moments.now ≡ moments.now)
        × IsReady renewer.now.table pass.old.view.facts LAST_MOMENT job) }
    ensures memory { OnErr result (HasLent pass.old.view pass.new.view 0 × (jobs.new.items ≡ jobs.old.items)) }
{
    let part = renewer.pass(alloc, pass)?;
    let job = Job {
        pass: part,
        moments,
        outcomes: Err(AllocError),
    };
    match jobs.push(job) {
        Ok(()) => Ok(()),
        Err(failed) => {
            renewer.end(failed.value.pass, pass);
            Err(AllocError)
        }
    }
}

// Each worker in a thread of its own.
fn run_all<'m, L: Link + Send, K: Gate + Sync, R: Threads + Wait + Sync>(
    rt: &R,
    alloc: Global,
    renewer: &Renewer<L>,
    gate: &K,
    jobs: &mut Vec<Job<'m, L>>,
)
    requires few { length jobs.old.items < 2 ^ 32 }
    requires starts { All (λ job. IsAtStart renewer.now.table LAST_MOMENT job.pass job.moments.now) jobs.old.items }
    ensures len { length jobs.new.items ≡ length jobs.old.items }
    ensures same { AreSameWorkers jobs.old.items jobs.new.items }
    ensures done { All IsDone jobs.new.items }
{
    run_jobs(rt, alloc, renewer, gate, jobs.as_mut_slice());
}

// The same over what the list lends.
fn run_jobs<'m, L: Link + Send, K: Gate + Sync, R: Threads + Wait + Sync>(
    rt: &R,
    alloc: Global,
    renewer: &Renewer<L>,
    gate: &K,
    jobs: &mut [Job<'m, L>],
)
    requires few { length jobs.old < 2 ^ 32 }
    requires starts { All (λ job. IsAtStart renewer.now.table LAST_MOMENT job.pass job.moments.now) jobs.old }
    ensures same { AreSameWorkers jobs.old jobs.new }
    ensures done { All IsDone jobs.new }
{
    let threads = jobs.len().max(1);
    thread::for_each_mut(
        rt,
        jobs,
        threads,
        &|worker, job| {
            work(rt, alloc, renewer, gate, worker as u32, job);
        },
    );
}

// The leases of one worker.
fn work<'m, L: Link, K: Gate, R: Wait>(
    rt: &R,
    alloc: Global,
    renewer: &Renewer<L>,
    gate: &K,
    worker: u32,
    job: &mut Job<'m, L>,
)
    requires start { IsAtStart renewer.now.table LAST_MOMENT job.old.pass job.old.moments.now }
    ensures same { IsSameWorker job.old job.new }
    ensures done { IsDone job.new }
{
    job.outcomes = lease_each(rt, alloc, renewer, gate, worker, &mut job.pass, job.moments);
}

// A lease at each of the moments, until memory runs out.
fn lease_each<L: Link, K: Gate, R: Wait>(
    rt: &R,
    alloc: Global,
    renewer: &Renewer<L>,
    gate: &K,
    worker: u32,
    pass: &mut Pass<L>,
    moments: &[u64],
) -> Result<Vec<Outcome>, AllocError>
    requires table { pass.old.table ≡ renewer.now.table }
    requires moments { AllByRecursion (λ at. at ≤ LAST_MOMENT) moments.now }
    ensures table { pass.new.table ≡ pass.old.table }
    ensures lent { HasLent pass.old.view pass.new.view 0 }
    ensures outcomes { IfOk result (λ outcomes. AreOutcomesOf pass.new.view.facts.margin pass.new.view.seen moments.now outcomes.items) }
    ensures lost { IfOk result (λ outcomes. IsLostIn outcomes.items pass.old.view pass.new.view) }
{
    let mut outcomes = Vec::new(alloc);
    for at in moments {
        gate.stand(worker);
        let outcome = lease_one(rt, alloc, renewer, pass, *at)?;
        outcomes.push(outcome)?;
    }
    Ok(outcomes)
}

fn lease_one<L: Link, R: Wait>(
    rt: &R,
    alloc: Global,
    renewer: &Renewer<L>,
    pass: &mut Pass<L>,
    at: u64,
) -> Result<Outcome, AllocError>
    requires table { pass.old.table ≡ renewer.now.table }
    requires moment { at ≤ LAST_MOMENT }
    ensures table { pass.new.table ≡ pass.old.table }
    ensures lent { HasLent pass.old.view pass.new.view 0 }
    ensures outcome { IfOk result (λ outcome. IsOutcome pass.new.view.facts.margin pass.new.view.seen at outcome) }
    ensures lost { IfOk result (λ outcome. IsLostIn (outcome ∷ []) pass.old.view pass.new.view) }
{
    let answer = renewer.lease_at(rt, alloc, pass, at);
    outcome_of(answer)
}

// Joins the workers' passes back, and gives their outcomes out, where none lacked memory.
fn join_jobs<'m, L: Link>(
    alloc: Global,
    renewer: &Renewer<L>,
    pass: &mut Pass<L>,
    jobs: Vec<Job<'m, L>>,
) -> Result<Vec<Vec<Outcome>>, AllocError>
    requires table { pass.old.table ≡ renewer.now.table }
    requires parts { All (λ job. IsPart renewer.now.table pass.old.view.facts job.pass) jobs.items }
    requires done { All IsDone jobs.items }
    ensures table { pass.new.table ≡ pass.old.table }
    ensures lent { (first : _) (lent : ℕ) → HasLent first pass.old.view (lent + length jobs.entry.items)
        → HasLent first pass.new.view lent }
    ensures outcomes { IfOk result (λ lists. AreOutcomes pass.old.view.facts.margin pass.new.view.seen
        (map (λ job. job.moments.now) jobs.entry.items) (map (λ list. list.items) lists.items)) }
    ensures lost { IfOk result (λ lists. IsLostBy (map (λ list. list.items) lists.items) pass.old.view pass.new.view) }
{
    let mut lists = Vec::new(alloc);
    let mut whole = true;
    for job in jobs {
        let Job {
            pass: part,
            moments: _,
            outcomes,
        } = job;
        renewer.end(part, pass);
        whole = put_list(&mut lists, outcomes, whole);
    }
    if whole {
        return Ok(lists);
    }
    drop(lists);
    Err(AllocError)
}

// Puts a worker's outcomes behind the others. They are still whole, where there are some and a place for them.
fn put_list(
    lists: &mut Vec<Vec<Outcome>>,
    outcomes: Result<Vec<Outcome>, AllocError>,
    whole: bool,
) -> bool
    ensures whole { IsTrue result → IsTrue whole }
    ensures put { IsTrue result → (list : _) × (outcomes ≡ Ok list) × (lists.new.items ≡ lists.old.items ++ list ∷ []) }
{
    match outcomes {
        Ok(list) => match lists.push(list) {
            Ok(()) => whole,
            Err(failed) => {
                drop(failed);
                false
            }
        },
        Err(AllocError) => false,
    }
}
