ghost use Rattle.std.specs.Prelude.{◌≡◌, ◌≢◌, ◌≤◌, ◌⊎◌, ℕ, Some, IfOk};
ghost use Rattle.wif_base.specs.Causes.{Rose};
ghost use Rattle.generated_work.specs.Told.{work_text};
ghost use Rattle.wif_tool.specs.Command.{texts};
ghost use Rattle.wif_tool.specs.Lines.{LineDue};
ghost use Rattle.wif_tool.specs.Work.{AsksForWork, SaysWork, work_word};

use crate::counts::number_up_to;
use generated_work::{WorkEnd, tell_work};
use std::alloc::{AllocError, Global};
use wif_base::Sink;

/// A run of `gen`, where the words ask for one. Answers the status.
pub(crate) fn work_status<O: Sink>(alloc: Global, words: &[String], output: &mut O) -> u8
    ensures work { (count : ℕ) → AsksForWork (texts words.now) count
        → LineDue (work_text count) 0 (O.taken output.old) (O.taken output.new) result }
    ensures words { result ≡ 2 → ((count : ℕ) → AsksForWork (texts words.now) count → ⊥) × (output.new ≡ output.old) }
    ensures other_words { ((count : ℕ) → AsksForWork (texts words.now) count → ⊥) → (result ≡ 2) ⊎ (result ≡ 7) }
    ensures write_fault { result ≡ 4 → Rose (O.faults output.old) (O.faults output.new) }
    ensures no_other { (result ≢ 1) × (result ≢ 3) × (result ≢ 5) × (result ≢ 6) × (result ≤ 7) }
{
    match work_of(alloc, words) {
        Ok(Some(count)) => told_status(tell_work(alloc, count, output)),
        Ok(None) => 2,
        Err(AllocError) => 7,
    }
}

// The number whose work the words ask for.
fn work_of(alloc: Global, words: &[String]) -> Result<Option<u32>, AllocError>
    ensures { IfOk result (SaysWork (work_word (texts words.now))) }
{
    match words {
        [name, count] => {
            if name.as_str() == "gen" {
                read_work(alloc, count.as_str())
            } else {
                Ok(None)
            }
        }
        _ => Ok(None),
    }
}

fn read_work(alloc: Global, count: &str) -> Result<Option<u32>, AllocError>
    ensures { IfOk result (SaysWork (Some count.now)) }
{
    let Some(count) = number_up_to(alloc, count, 500)? else {
        return Ok(None);
    };
    Ok(Some(count as u32))
}

fn told_status(end: WorkEnd) -> u8
    ensures done { result ≡ 0 → end ≡ WorkEnd.Done }
    ensures write_fault { result ≡ 4 → end ≡ WorkEnd.WriteFault }
    ensures memory { result ≡ 7 → end ≡ WorkEnd.Memory }
    ensures no_other { (result ≡ 0) ⊎ ((result ≡ 4) ⊎ (result ≡ 7)) }
{
    match end {
        WorkEnd::Done => 0,
        WorkEnd::WriteFault => 4,
        WorkEnd::Memory => 7,
    }
}
