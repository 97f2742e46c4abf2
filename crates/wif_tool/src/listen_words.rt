ghost use Rattle.std.specs.Prelude.{IfOk, Some};
ghost use Rattle.wif_tool.specs.Command.{texts};
ghost use Rattle.wif_tool.specs.Listening.{Says, number_words};

use crate::counts::number_up_to;
use std::alloc::{AllocError, Global};

/// What the words of `listen` ask for: the port of 127.0.0.1, and how many connections are served.
#[derive(Clone, Copy, Debug, PartialEq, Eq)]
pub struct Listening {
    pub port: u16,
    pub count: u32,
}

/// What the words behind the program's name ask for, where they are those of `listen`.
pub fn listening_of(alloc: Global, words: &[String]) -> Result<Option<Listening>, AllocError>
    ensures { IfOk result (Says (number_words (texts words.now))) }
{
    match words {
        [name, _, _, port, count] => {
            if name.as_str() == "listen" {
                read_numbers(alloc, port.as_str(), count.as_str())
            } else {
                Ok(None)
            }
        }
        _ => Ok(None),
    }
}

// The port and the count of these words.
fn read_numbers(alloc: Global, port: &str, count: &str) -> Result<Option<Listening>, AllocError>
    ensures { IfOk result (Says (Some (port.now, count.now))) }
{
    let Some(port) = number_up_to(alloc, port, 65_535)? else {
        return Ok(None);
    };
    let Some(count) = number_up_to(alloc, count, 1_000_000)? else {
        return Ok(None);
    };
    Ok(Some(Listening {
        port: port as u16,
        count: count as u32,
    }))
}
