ghost use Rattle.std.specs.Prelude.{◌≡◌};
ghost use Rattle.wif_tool.specs.Command.{command, service_command as of_service, texts};

/// What the words of a command line ask for.
#[derive(Clone, Copy, Debug, PartialEq, Eq)]
pub enum Command {
    /// `init JOURNAL`: the empty journal.
    Init,
    /// `cel`: the expressions in lines, from standard input to standard output.
    Cel,
    /// `script CONFIG JOURNAL`: the requests of a script, from standard input to standard output.
    Script,
    /// `stdio CONFIG JOURNAL`: the requests of one connection, from standard input to standard output.
    Stdio,
}

/// The command that the words behind the program's name are.
pub fn command_of(words: &[String]) -> Option<Command>
    ensures { result ≡ command (texts words.now) }
{
    match words {
        [name] => {
            if name.as_str() == "cel" {
                Some(Command::Cel)
            } else {
                None
            }
        }
        [name, _] => {
            if name.as_str() == "init" {
                Some(Command::Init)
            } else {
                None
            }
        }
        [name, _, _] => service_command(name.as_str()),
        _ => None,
    }
}

// The command of this name over a configuration and a journal.
fn service_command(name: &str) -> Option<Command>
    ensures { result ≡ of_service name.now }
{
    if name == "script" {
        return Some(Command::Script);
    }
    if name == "stdio" {
        return Some(Command::Stdio);
    }
    None
}
