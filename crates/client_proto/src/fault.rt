use std::alloc::AllocError;

/// A member of the client's file.
#[derive(Clone, Copy, Debug, PartialEq, Eq)]
pub enum ClientMember {
    FileType,
    Audience,
    SubjectTokenType,
    TokenUrl,
    CredentialSource,
    ImpersonationUrl,
}

/// The first rule that a client's file fails.
#[derive(Clone, Copy, Debug, PartialEq, Eq)]
pub enum ConfigFault {
    /// It is no JSON object.
    Json,
    /// The member isn't there, or isn't of its form.
    Field(ClientMember),
    /// The member is a URL of TLS, which the client doesn't speak.
    Tls(ClientMember),
    Memory,
}

/// Why a file has no subject token.
#[derive(Clone, Copy, Debug, PartialEq, Eq)]
pub enum SubjectFault {
    Bad,
    Memory,
}

impl ClientMember {
    ghost use Rattle.std.specs.Prelude.{◌≡◌};
    ghost use Rattle.client_proto.specs.ClientFile.{member_name};

    /// The member's name in the file.
    pub fn name(self) -> &'static str
        ensures { result.now ≡ member_name self }
    {
        match self {
            ClientMember::FileType => "type",
            ClientMember::Audience => "audience",
            ClientMember::SubjectTokenType => "subject_token_type",
            ClientMember::TokenUrl => "token_url",
            ClientMember::CredentialSource => "credential_source",
            ClientMember::ImpersonationUrl => "service_account_impersonation_url",
        }
    }
}

impl From<AllocError> for ConfigFault {
    ghost use Rattle.std.specs.Prelude.{◌≡◌};
    ghost use Rattle.client_proto.specs.declared.fault.ConfigFault.TheVariants.{Memory};

    ghost from_gives = { λ _ fault. fault ≡ Memory };

    fn from(_error: AllocError) -> Self {
        ConfigFault::Memory
    }
}

impl From<AllocError> for SubjectFault {
    ghost use Rattle.std.specs.Prelude.{◌≡◌};
    ghost use Rattle.client_proto.specs.declared.fault.SubjectFault.TheVariants.{Memory};

    ghost from_gives = { λ _ fault. fault ≡ Memory };

    fn from(_error: AllocError) -> Self {
        SubjectFault::Memory
    }
}
