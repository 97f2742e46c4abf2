ghost use Rattle.std.specs.Prelude.{◌≡◌, ◌<◌};
ghost use Rattle.sts_serve.specs.Cut.{IsCut};

/// What stands at the front of some bytes: a word and what follows the separator, the front of a word, or neither.
#[derive(Clone, Copy)]
pub enum Cut<'a> {
    Word(&'a [u8], &'a [u8]),
    Part,
    Never,
}

/// Cuts a word of visible bytes off the front.
pub fn cut_word(bytes: &[u8], separator: u8, longest: usize) -> Cut<'_>
    requires { separator < 33 }
    ensures { IsCut separator longest bytes.now result }
{
    'bytes: for (index, byte) in bytes.iter().enumerate() {
        if *byte == separator {
            if index == 0 {
                return Cut::Never;
            }
            let (word, rest) = bytes.split_at(index);
            let (_, rest) = rest.split_at(1);
            return Cut::Word(word, rest);
        }
        if *byte < 33 || *byte > 126 || index == longest {
            return Cut::Never;
        }
    }
    Cut::Part
}
