use std::alloc::AllocError;

/// A member of a command's object.
#[derive(Clone, Copy, Debug, PartialEq, Eq)]
pub enum CommandMember {
    Project,
    Pool,
    Provider,
    Issuer,
    Key,
    Audiences,
    Mapping,
    Condition,
    Disabled,
    Email,
    Role,
    Permissions,
    Scope,
    Resource,
    Bindings,
}

/// The first rule that a command fails.
#[derive(Clone, Copy, Debug, PartialEq, Eq)]
pub enum CommandFault {
    /// `kind` isn't there, or is none of the texts `pool`, `provider`, `account`, `role`, `scope` and `policy`.
    Kind,
    /// The member isn't there and has no default, or is of another type or form.
    Field(CommandMember),
    /// The member's expression doesn't parse, or has another type. It comes where each member has its form.
    Expression(CommandMember),
    Memory,
}

impl CommandMember {
    ghost use Rattle.std.specs.Prelude.{◌≡◌};
    ghost use Rattle.sts_admin.specs.Names.{member_name};

    /// The member's name in the object.
    pub fn name(self) -> &'static str
        ensures { result.now ≡ member_name self }
    {
        match self {
            CommandMember::Project => "project",
            CommandMember::Pool => "pool",
            CommandMember::Provider => "provider",
            CommandMember::Issuer => "issuer",
            CommandMember::Key => "key",
            CommandMember::Audiences => "audiences",
            CommandMember::Mapping => "mapping",
            CommandMember::Condition => "condition",
            CommandMember::Disabled => "disabled",
            CommandMember::Email => "email",
            CommandMember::Role => "role",
            CommandMember::Permissions => "permissions",
            CommandMember::Scope => "scope",
            CommandMember::Resource => "resource",
            CommandMember::Bindings => "bindings",
        }
    }
}

impl From<AllocError> for CommandFault {
    ghost use Rattle.std.specs.Prelude.{◌≡◌};
    ghost use Rattle.sts_admin.specs.declared.command.CommandFault.TheVariants.{Memory};

    ghost from_gives = { λ _ fault. fault ≡ Memory };

    fn from(_error: AllocError) -> Self {
        CommandFault::Memory
    }
}
