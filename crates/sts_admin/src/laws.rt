ghost use Rattle.std.specs.Prelude.{◌≡◌, Ok};
ghost use Rattle.serde_json.specs.Data.{Data};
ghost use Rattle.service_view.specs.Commands.{IsCommand};
ghost use Rattle.service_view.specs.declared.command.Command.{Command};
ghost use Rattle.sts_admin.specs.Commands.{command_of};

/// A law: a command that is read has its form.
pub fn read_commands_have_their_form()
    ensures { (d : Data) (command : Command) → command_of d ≡ Ok command → IsCommand command }
{}
