ghost use Rattle.std.specs.Prelude.{◌≡◌, ◌≢◌, ◌≤◌};
ghost use Rattle.wif_base.specs.Causes.{Rose};
ghost use Rattle.wif_tool.specs.Status.{CelOutcome, lines_status};

use cel_lines::{LinesEnd, run_lines};
use std::alloc::Global;
use wif_base::{Sink, Source};

/// A run of `cel`. Answers the status.
pub(crate) fn cel_status<I: Source, O: Sink>(alloc: Global, input: &mut I, output: &mut O) -> u8
    ensures outcome { CelOutcome (I.left input.old) (I.left input.new) (O.taken output.old) (O.taken output.new) result }
    ensures read_fault { result ≡ 3 → Rose (I.faults input.old) (I.faults input.new) }
    ensures write_fault { result ≡ 4 → Rose (O.faults output.old) (O.faults output.new) }
    ensures no_other { (result ≢ 1) × (result ≢ 2) × (result ≢ 5) × (result ≢ 6) × (result ≢ 9) × (result ≤ 10) }
{
    let end = run_lines(alloc, input, output);
    status_of(end)
}

fn status_of(end: LinesEnd) -> u8
    ensures { result ≡ lines_status end }
{
    match end {
        LinesEnd::Done => 0,
        LinesEnd::ReadFault => 3,
        LinesEnd::WriteFault => 4,
        LinesEnd::Memory => 7,
        LinesEnd::LineTooLong => 8,
        LinesEnd::InputLimit => 10,
    }
}
