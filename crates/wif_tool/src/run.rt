ghost use Rattle.std.specs.Prelude.{◌≡◌, ◌≢◌, ◌≤◌, ◌⊎◌, ◌+◌, [], length, ℕ, List, None, Some};
ghost use Rattle.std.specs.Io.KnownBytes.{Consumes};
ghost use Rattle.grant_journal.specs.Emptying.{IsEmptyOrNone};
ghost use Rattle.wif_base.specs.Causes.{Rose};
ghost use Rattle.wif_base.specs.Carried.{input_limit};
ghost use Rattle.wif_base.specs.Disk.{Leaves, LeavesNow, told_synced};
ghost use Rattle.links.specs.declared.entry.Entry.{Entry};
ghost use Rattle.service_journal.specs.declared.opening.OpenFault.{OpenFault};
ghost use Rattle.sts_serve.specs.Frames.{ScriptSpells};
ghost use Rattle.sts_serve.specs.declared.frame.Frame.{Frame};
ghost use Rattle.wif_tool.specs.Command.{command, texts};
ghost use Rattle.wif_tool.specs.Emptied.{InitOutcome};
ghost use Rattle.generated_work.specs.Told.{work_text};
ghost use Rattle.wif_tool.specs.Connection.{AllServed, ConnectionOutcome};
ghost use Rattle.wif_tool.specs.Lines.{LineDue};
ghost use Rattle.wif_tool.specs.Work.{AsksForWork};
ghost use Rattle.wif_tool.specs.Opened.{Holds, IsRefused, NotOpened, NotRead, fault_status};
ghost use Rattle.wif_tool.specs.Status.{Configured, NoConfiguration, NotConfigured, StopsBefore, HoldsJournal, HoldsNoJournal, HasScript};
ghost use Rattle.wif_tool.specs.Status.{ScriptOutcome, AllAnswered, AnsweredUpTo, CelOutcome, HasLines, HasLongLine};

use crate::Command;
use crate::cel::cel_status;
use crate::command::command_of;
use crate::init::init_status;
use crate::script::script_status;
use crate::stdio::stdio_status;
use crate::work::work_status;
use std::alloc::Global;
use wif_base::{Clock, Disk, Sink, Source};

/// Does all that the program `sts` does, and answers its status: 0 where the input was read to its end and
/// answered, 1 at a configuration that is none, 2 at words that are no command, 3 where reading failed, 4 where
/// writing failed, 5 where the disk failed, 6 where it holds no journal of the configuration, or for `init` something, 7 for want of
/// memory, 8 at what is no frame or a line that is too long, 9 where the clock failed, 10 at more than 2^30 bytes of input.
pub fn sts_run<G: Source, I: Source, O: Sink, D: Disk, C: Clock>(
    alloc: Global,
    words: &[String],
    config: &mut G,
    input: &mut I,
    output: &mut O,
    disk: &mut D,
    clock: &mut C,
) -> u8
    // What a reader asks first of `script`: at 0 all was answered, and at 8 all that stands before what is no frame; and a crash leaves the
    // journal of that.
    ensures done { command (texts words.now) ≡ Some Command.Script → result ≡ 0 → (setup : _) × Configured (G.left config.old) (G.left config.new) setup
        × (before : List Entry) × Holds setup before (D.told disk.old)
        × AllAnswered setup before (I.left input.old) (I.left input.new) (O.taken output.old) (O.taken output.new) (D.told disk.new) }
    ensures malformed { command (texts words.now) ≡ Some Command.Script → result ≡ 8 → (setup : _) × Configured (G.left config.old) (G.left config.new) setup
        × (before : List Entry) × Holds setup before (D.told disk.old)
        × AnsweredUpTo setup before (I.left input.old) (I.left input.new) (O.taken output.old) (O.taken output.new) (D.told disk.new) }
    ensures malformed_only { command (texts words.now) ≡ Some Command.Script
        → (bytes : List ℕ) (frames : List Frame) (rest : List ℕ) → I.left input.old ≡ Some bytes → ScriptSpells bytes frames rest → rest ≢ [] → result ≢ 0 }

    // With words, configuration, journal and input of their forms and no fault all is answered, unless memory runs out.
    ensures complete { command (texts words.now) ≡ Some Command.Script → HoldsJournal (G.left config.old) (D.told disk.old) → HasScript (I.left input.old)
        → (Rose (G.faults config.old) (G.faults config.new) → ⊥)
        → (Rose (I.faults input.old) (I.faults input.new) → ⊥)
        → (Rose (O.faults output.old) (O.faults output.new) → ⊥)
        → (Rose (D.faults disk.old) (D.faults disk.new) → ⊥)
        → (result ≡ 0) ⊎ (result ≡ 7) }

    // At 6 the file is refused, and a line tells the place and the rule; what holds no journal of the configuration is refused.
    ensures refused { command (texts words.now) ≡ Some Command.Script → result ≡ 6 → (setup : _) × Configured (G.left config.old) (G.left config.new) setup
        × IsRefused setup (D.told disk.old) (D.told disk.new) (O.taken output.old) (O.taken output.new) × (input.new ≡ input.old) }
    ensures refuses { command (texts words.now) ≡ Some Command.Script → HoldsNoJournal (G.left config.old) (D.told disk.old)
        → (Rose (G.faults config.old) (G.faults config.new) → ⊥)
        → (Rose (I.faults input.old) (I.faults input.new) → ⊥)
        → (Rose (D.faults disk.old) (D.faults disk.new) → ⊥)
        → (result ≡ 6) ⊎ ((result ≡ 4) ⊎ (result ≡ 7)) }

    // The same of `stdio`, over the requests of a connection: at 0 all were answered up to the end of their stream, and no line is written at 6.
    ensures served { command (texts words.now) ≡ Some Command.Stdio → result ≡ 0 → (setup : _) × Configured (G.left config.old) (G.left config.new) setup
        × (before : List Entry) × Holds setup before (D.told disk.old)
        × AllServed setup before (I.left input.old) (I.left input.new) (O.taken output.old) (O.taken output.new)
        (C.moments clock.old) (C.moments clock.new) (D.told disk.new) }
    ensures stdio_complete { command (texts words.now) ≡ Some Command.Stdio → HoldsJournal (G.left config.old) (D.told disk.old)
        → (bytes : List ℕ) → I.left input.old ≡ Some bytes → length bytes ≤ input_limit
        → (Rose (G.faults config.old) (G.faults config.new) → ⊥)
        → (Rose (I.faults input.old) (I.faults input.new) → ⊥)
        → (Rose (O.faults output.old) (O.faults output.new) → ⊥)
        → (Rose (D.faults disk.old) (D.faults disk.new) → ⊥)
        → (Rose (C.faults clock.old) (C.faults clock.new) → ⊥)
        → (result ≡ 0) ⊎ (result ≡ 7) }
    ensures stdio_refuses { command (texts words.now) ≡ Some Command.Stdio → HoldsNoJournal (G.left config.old) (D.told disk.old)
        → (Rose (G.faults config.old) (G.faults config.new) → ⊥)
        → (Rose (I.faults input.old) (I.faults input.new) → ⊥)
        → (Rose (D.faults disk.old) (D.faults disk.new) → ⊥)
        → (result ≡ 6) ⊎ (result ≡ 7) }

    // The output law and the status law of each command: what was read, written and recorded at each status, and what a crash leaves.
    ensures script { command (texts words.now) ≡ Some Command.Script
        → (StopsBefore result × (input.new ≡ input.old) × (output.new ≡ output.old) × (disk.new ≡ disk.old))
        ⊎ ((setup : _) × Configured (G.left config.old) (G.left config.new) setup
        × (((fault : OpenFault) × NotOpened fault setup (D.told disk.old) (D.told disk.new) (O.taken output.old) (O.taken output.new) result
        × (input.new ≡ input.old))
        ⊎ ((before : List Entry) × Holds setup before (D.told disk.old)
        × ScriptOutcome setup before (I.left input.old) (I.left input.new) (O.taken output.old) (O.taken output.new)
        (told_synced (D.told disk.old)) (D.told disk.new) result))) }

    ensures stdio { command (texts words.now) ≡ Some Command.Stdio
        → (StopsBefore result × (input.new ≡ input.old) × (output.new ≡ output.old) × (disk.new ≡ disk.old) × (clock.new ≡ clock.old))
        ⊎ ((setup : _) × Configured (G.left config.old) (G.left config.new) setup
        × (((fault : OpenFault) × (result ≡ fault_status fault) × NotRead fault setup (D.told disk.old) (D.told disk.new)
        × (input.new ≡ input.old) × (output.new ≡ output.old) × (clock.new ≡ clock.old))
        ⊎ ((before : List Entry) × Holds setup before (D.told disk.old)
        × ConnectionOutcome setup before (I.left input.old) (I.left input.new) (O.taken output.old) (O.taken output.new)
        (C.moments clock.old) (C.moments clock.new) (told_synced (D.told disk.old)) (D.told disk.new) result))) }

    ensures init { command (texts words.now) ≡ Some Command.Init
        → InitOutcome (D.told disk.old) (D.told disk.new) (D.faults disk.old) (D.faults disk.new) result
        × (config.new ≡ config.old) × (input.new ≡ input.old) × (output.new ≡ output.old) }
    ensures init_any_moment { command (texts words.now) ≡ Some Command.Init → LeavesNow (D.told disk.old) (λ image. image ≡ [])
        → Leaves (D.told disk.old) (D.told disk.new) IsEmptyOrNone }

    ensures cel { command (texts words.now) ≡ Some Command.Cel
        → CelOutcome (I.left input.old) (I.left input.new) (O.taken output.old) (O.taken output.new) result
        × (config.new ≡ config.old) × (disk.new ≡ disk.old) }

    // `gen N` writes the line of the work, a proper part of it where writing fails, and nothing for want of memory.
    ensures work { command (texts words.now) ≡ None → (count : ℕ) → AsksForWork (texts words.now) count
        → LineDue (work_text count) 0 (O.taken output.old) (O.taken output.new) result
        × (config.new ≡ config.old) × (input.new ≡ input.old) × (disk.new ≡ disk.old) }

    // Where each line has at most 65,536 bytes and nothing fails all are answered, unless memory runs out; a longer
    // line is never taken for the end.
    ensures cel_complete { HasLines (texts words.now) (I.left input.old)
        → (Rose (I.faults input.old) (I.faults input.new) → ⊥)
        → (Rose (O.faults output.old) (O.faults output.new) → ⊥)
        → (result ≡ 0) ⊎ (result ≡ 7) }
    ensures cel_long_line { HasLongLine (texts words.now) (I.left input.old) → result ≢ 0 }
    ensures cel_read_fault { command (texts words.now) ≡ Some Command.Cel → result ≡ 3 → Rose (I.faults input.old) (I.faults input.new) }

    // The causes of the other statuses.
    ensures words { result ≡ 2 → (command (texts words.now) ≡ None) × ((count : ℕ) → AsksForWork (texts words.now) count → ⊥) }
    ensures other_words { command (texts words.now) ≡ None → ((count : ℕ) → AsksForWork (texts words.now) count → ⊥) → (result ≡ 2) ⊎ (result ≡ 7) }
    ensures no_command { result ≡ 2 → (config.new ≡ config.old) × (input.new ≡ input.old) × (output.new ≡ output.old) × (disk.new ≡ disk.old) }
    ensures configuration { result ≡ 1 → NotConfigured (G.left config.old) (G.left config.new) × (disk.new ≡ disk.old) }
    ensures configuration_only { (bytes : List ℕ) → G.left config.old ≡ Some bytes → NoConfiguration bytes
        → (command (texts words.now) ≡ Some Command.Script) ⊎ (command (texts words.now) ≡ Some Command.Stdio)
        → StopsBefore result × (disk.new ≡ disk.old) }
    ensures limit { result ≡ 10 → (read : List ℕ) × Consumes (I.left input.old) (I.left input.new) read × (length read ≡ input_limit + 1) }
    ensures read_fault { result ≡ 3 → Rose (G.faults config.old) (G.faults config.new) ⊎ Rose (I.faults input.old) (I.faults input.new) }
    ensures write_fault { result ≡ 4 → Rose (O.faults output.old) (O.faults output.new) }
    ensures disk_fault { result ≡ 5 → Rose (D.faults disk.old) (D.faults disk.new) }
    ensures clock_fault { result ≡ 9 → (command (texts words.now) ≡ Some Command.Stdio) × Rose (C.faults clock.old) (C.faults clock.new) }
    ensures no_other { result ≤ 10 }

    // Only `stdio` asks for a moment.
    ensures clock { command (texts words.now) ≢ Some Command.Stdio → clock.new ≡ clock.old }
{
    match command_of(words) {
        Some(Command::Init) => init_status(disk),
        Some(Command::Script) => script_status(alloc, config, input, output, disk),
        Some(Command::Stdio) => stdio_status(alloc, config, input, output, disk, clock),
        Some(Command::Cel) => cel_status(alloc, input, output),
        None => work_status(alloc, words, output),
    }
}
