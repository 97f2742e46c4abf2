ghost use Rattle.std.specs.Prelude.{◌≡◌, ◌≤◌, Ok};
ghost use Rattle.serde_json.specs.Data.{Data, depth};
ghost use Rattle.json_text.specs.Clean.{IsClean, HasUtf8};
ghost use Rattle.service_view.specs.declared.command.Command.{Command};
ghost use Rattle.sts_admin.specs.Commands.{command_of};
ghost use Rattle.command_texts.specs.Exact.{IsExactCommand};
ghost use Rattle.command_texts.specs.Written.{command_data};

/// A law: an exact command, written, reads back as itself, and its object is one that a compact text gives back.
pub fn an_exact_command_reads_back()
    ensures reads_back { (command : Command) → IsExactCommand command
        → command_of (command_data command) ≡ Ok command }
    ensures clean { (command : Command) → IsExactCommand command → IsClean (command_data command) }
    ensures utf8 { (command : Command) → IsExactCommand command → HasUtf8 (command_data command) }
    ensures shallow { (command : Command) → IsExactCommand command → depth (command_data command) ≤ 8 }
{}

/// A law: a command that is read from an object of UTF-8 is exact, so it reads back from its own text.
pub fn a_command_that_is_read_is_exact()
    ensures { (d : Data) (command : Command) → HasUtf8 d → command_of d ≡ Ok command → IsExactCommand command }
{}
