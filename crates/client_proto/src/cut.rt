ghost use Rattle.std.specs.Prelude.{◌≡◌, ◌<◌, option_map};
ghost use Rattle.iam_names.specs.Cuts as cuts;

/// What follows the front, where the text begins with it.
pub(crate) fn after<'a>(text: &'a str, front: &str) -> Option<&'a str>
    ensures { option_map (λ rest. rest.now) result ≡ cuts.after front.now text.now }
{
    text.strip_prefix(front)
}

/// What stands before the first such sign, and what follows it.
pub(crate) fn cut_at(text: &str, sign: char) -> Option<(&str, &str)>
    requires { sign < 128 }
    ensures { option_map (λ parts. (parts.0.now, parts.1.now)) result ≡ cuts.cut_at sign text.now }
{
    text.split_once(sign)
}
