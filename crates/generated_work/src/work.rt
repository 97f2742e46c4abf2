ghost use Rattle.std.specs.Prelude.{◌≡◌, ◌≤◌, ℕ, List, [], IfOk};
ghost use Rattle.std.specs.String.{string_bytes};
ghost use Rattle.std.specs.Io.KnownBytes.{Appends};
ghost use Rattle.wif_base.specs.Causes.{Rose};
ghost use Rattle.wif_base.specs.Output.{IsProperPart};
ghost use Rattle.sts_core.specs.State.{Stands};
ghost use Rattle.generated_work.specs.Setting.{run_config as config_of_run};
ghost use Rattle.generated_work.specs.Told.{work_text};

use crate::WorkEnd;
use crate::counts::line_of;
use crate::running::run;
use crate::setting::{run_config, start_service};
use std::alloc::{AllocError, Global};
use sts_core::Sts;
use wif_base::{Failed, MemDisk, Sink, write_text};

/// Does the work of a number, and writes the line that tells of it.
pub fn tell_work<O: Sink>(alloc: Global, count: u32, output: &mut O) -> WorkEnd
    requires some { 1 ≤ count }
    requires few { count ≤ 500 }
    ensures done { result ≡ WorkEnd.Done → Appends (O.taken output.old) (O.taken output.new) (work_text count) }
    ensures write_fault { result ≡ WorkEnd.WriteFault → (part : List ℕ) × IsProperPart part (work_text count) × Appends (O.taken output.old) (O.taken output.new) part }
    ensures cause { result ≡ WorkEnd.WriteFault → Rose (O.faults output.old) (O.faults output.new) }
    ensures memory { result ≡ WorkEnd.Memory → O.taken output.new ≡ O.taken output.old }
    ensures count { O.faults output.old ≤ O.faults output.new }
    ensures same { O.lender output.new ≡ O.lender output.old }
{
    let line = match work_line(alloc, count) {
        Ok(line) => line,
        Err(AllocError) => return WorkEnd::Memory,
    };
    match write_text(output, line.as_bytes()) {
        Ok(()) => WorkEnd::Done,
        Err(Failed) => WorkEnd::WriteFault,
    }
}

// The line of the work.
fn work_line(alloc: Global, count: u32) -> Result<String, AllocError>
    requires { count ≤ 500 }
    ensures { IfOk result (λ line. string_bytes line ≡ work_text count) }
{
    let config = run_config(alloc)?;
    let started = start_service(alloc, &config);
    drop(config);
    line_after(alloc, started?, count)
}

// The line of the work of a service that was started.
#[tactic(auto, unfolding(crate::specs::Told::work_text, crate::specs::Told::line_at))]
fn line_after(alloc: Global, mut sts: Sts<MemDisk>, count: u32) -> Result<String, AllocError>
    requires few { count ≤ 500 }
    requires stands { Stands sts config_of_run [] }
    ensures { IfOk result (λ line. string_bytes line ≡ work_text count) }
{
    let ran = run(alloc, &mut sts, count);
    let entries = sts.state().entry_count();
    drop(sts);
    match ran {
        Ok(counts) => line_of(alloc, counts, entries),
        Err(_) => Err(AllocError),
    }
}

#[cfg(test)]
mod tests {
    use super::*;
    use std::test::Fail;
    use wif_base::MemSink;

    #[test]
    fn work_is_told(rt: HostRuntime) -> Result<(), Fail> {
        let cases = [
            (
                1u32,
                "exchanges 1 narrowed 0 admitted 1 denied 0 entries 5\n",
            ),
            (2, "exchanges 2 narrowed 0 admitted 2 denied 0 entries 6\n"),
            (3, "exchanges 3 narrowed 2 admitted 1 denied 2 entries 9\n"),
        ];
        for (count, told) in cases {
            let room = Vec::with_capacity(rt.alloc(), 100)?;
            let mut output = MemSink::new(room, Vec::new(rt.alloc()));
            assert_eq!(rt; tell_work(rt.alloc(), count, &mut output), WorkEnd::Done);
            assert_eq!(rt; output.bytes.as_slice(), told.as_bytes());
        }
        Ok(())
    }

    #[test]
    fn largest_work_has_room(rt: HostRuntime) -> Result<(), Fail> {
        let room = Vec::with_capacity(rt.alloc(), 100)?;
        let mut output = MemSink::new(room, Vec::new(rt.alloc()));
        assert_eq!(rt; tell_work(rt.alloc(), 500, &mut output), WorkEnd::Done);
        Ok(())
    }
}
