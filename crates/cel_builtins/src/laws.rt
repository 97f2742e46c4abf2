ghost use Rattle.std.specs.Prelude.{◌≡◌, true};
ghost use Rattle.cel_builtins.specs.declared.overloads.TheConstants.{OVERLOADS};
ghost use Rattle.cel_builtins.specs.Overloads.{keys_apart};

/// A law: no two rows of the overload table have one key.
pub fn one_row()
    ensures { keys_apart OVERLOADS ≡ true }
{}
