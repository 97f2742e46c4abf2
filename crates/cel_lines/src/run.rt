ghost use Rattle.std.specs.Prelude.{◌≡◌, ◌≤◌, [], OnOk, OnErr};
ghost use Rattle.wif_base.specs.Causes.{Rose};
ghost use Rattle.wif_base.specs.Output.{WritesText};
ghost use Rattle.cel_lines.specs.Run.{LinesRun};
ghost use Rattle.cel_lines.specs.Last.{AnswersLast};

use crate::LinesEnd;
use crate::answer::push_answer;
use crate::front::{Front, front_of};
use std::alloc::{AllocError, Global};
use wif_base::{Carry, Failed, More, Sink, Source, write_text};

/// Answers the lines of a source, one after another, until the input ends or the run can't go on. The answers to the
/// lines at hand are written before more of the input is read.
pub fn run_lines<I: Source, O: Sink>(alloc: Global, input: &mut I, output: &mut O) -> LinesEnd
    ensures run { LinesRun (I.left input.old) (I.left input.new) (O.taken output.old) (O.taken output.new) result }

    // The causes of the faults.
    ensures read_fault { result ≡ LinesEnd.ReadFault → Rose (I.faults input.old) (I.faults input.new) }
    ensures write_fault { result ≡ LinesEnd.WriteFault → Rose (O.faults output.old) (O.faults output.new) }

    ensures input_count { I.faults input.old ≤ I.faults input.new }
    ensures output_count { O.faults output.old ≤ O.faults output.new }
    ensures same_input { I.lender input.new ≡ I.lender input.old }
    ensures same_output { O.lender output.new ≡ O.lender output.old }
{
    let mut carry = Carry::new(alloc);
    let mut answers = Vec::new(alloc);
    let mut looked = 0;
    'lines: loop {
        match front_of(carry.unused(), looked) {
            Front::Line(size) => {
                let (line, _) = carry.unused().split_at(size);
                if let Err(AllocError) = push_answer(alloc, line, &mut answers) {
                    return LinesEnd::Memory;
                }
                carry.use_up(size + 1);
                looked = 0;
            }
            Front::Part => {
                if let Err(Failed) = write_out(output, &mut answers) {
                    return LinesEnd::WriteFault;
                }
                looked = carry.unused().len();
                match carry.take_more(input) {
                    More::Some => {}
                    More::End => return answer_last(alloc, carry.unused(), output),
                    More::Failed => return LinesEnd::ReadFault,
                    More::Limit => return LinesEnd::InputLimit,
                    More::Memory => return LinesEnd::Memory,
                }
            }
            Front::TooLong => {
                if let Err(Failed) = write_out(output, &mut answers) {
                    return LinesEnd::WriteFault;
                }
                return LinesEnd::LineTooLong;
            }
        }
    }
}

// Writes the answers at hand.
fn write_out<O: Sink>(output: &mut O, answers: &mut Vec<u8>) -> Result<(), Failed>
    ensures written { WritesText (O.taken output.old) (O.taken output.new) answers.old.items result }
    ensures none_left { OnOk result (answers.new.items ≡ []) }
    ensures cause { OnErr result (Rose (O.faults output.old) (O.faults output.new)) }
    ensures count { O.faults output.old ≤ O.faults output.new }
    ensures same { O.lender output.new ≡ O.lender output.old }
{
    write_text(output, answers.as_slice())?;
    answers.clear();
    Ok(())
}

// Answers the line that the input ends in without a line feed, where there is one.
fn answer_last<O: Sink>(alloc: Global, rest: &[u8], output: &mut O) -> LinesEnd
    ensures last { AnswersLast result rest.now (O.taken output.old) (O.taken output.new) }
    ensures write_fault { result ≡ LinesEnd.WriteFault → Rose (O.faults output.old) (O.faults output.new) }
    ensures count { O.faults output.old ≤ O.faults output.new }
    ensures same { O.lender output.new ≡ O.lender output.old }
{
    if rest.is_empty() {
        return LinesEnd::Done;
    }
    let mut answers = Vec::new(alloc);
    if let Err(AllocError) = push_answer(alloc, rest, &mut answers) {
        return LinesEnd::Memory;
    }
    match write_out(output, &mut answers) {
        Ok(()) => LinesEnd::Done,
        Err(Failed) => LinesEnd::WriteFault,
    }
}
