ghost use Rattle.iam_names.specs.Audience as names;
ghost use Rattle.iam_names.specs.Parts.{provider_at};
ghost use Rattle.iam_names.specs.Reads.{ReadsName};

use crate::NameError;
use crate::cut::after;
use crate::forms::ProviderId;
use crate::pool_name::{PoolName, path_of};
use base_types::Text;
use std::alloc::{AllocError, Global};

/// A provider's full name:
/// `//iam.googleapis.com/projects/PROJECT/locations/global/workloadIdentityPools/POOL/providers/PROVIDER`.
#[derive(Debug, Drop)]
pub struct Audience {
    pub pool: PoolName,
    pub provider: ProviderId,
}

impl Audience {
    ghost use Rattle.std.specs.Prelude.{◌≡◌, IfOk};
    ghost use Rattle.iam_names.specs.Audience.{audience_of, audience_text};
    ghost use Rattle.iam_names.specs.Reads.{ReadsName};

    pub fn read(alloc: Global, text: &str) -> Result<Self, NameError>
        ensures read { ReadsName result (audience_of text.now) }
        ensures text { IfOk result (λ name. audience_text name ≡ text.now) }
    {
        read_audience(alloc, text)
    }

    pub fn print(&self, alloc: Global) -> Result<Text, AllocError>
        ensures { IfOk result (λ text. text ≡ audience_text self.now) }
    {
        let path = self.pool.path(alloc)?;
        let path = path.as_str();
        let provider = self.provider.as_str();
        Ok(Text::new(format!(in alloc; "//{path}/providers/{provider}")?))
    }

    pub fn copy(&self, alloc: Global) -> Result<Self, AllocError>
        ensures { IfOk result (λ name. name ≡ self.now) }
    {
        let pool = self.pool.copy(alloc)?;
        let provider = self.provider.copy(alloc)?;
        Ok(Audience { pool, provider })
    }
}

fn read_audience(alloc: Global, text: &str) -> Result<Audience, NameError>
    ensures { ReadsName result (names.audience_of text.now) }
{
    let Some(path) = after(text, "//").and_then(path_of) else {
        return Err(NameError::Form);
    };
    let pool = PoolName::of_parts(alloc, path.project, path.pool)?;
    let provider = read_provider(alloc, path.rest)?;
    Ok(Audience { pool, provider })
}

/// The provider of a text `providers/PROVIDER`.
fn read_provider(alloc: Global, text: &str) -> Result<ProviderId, NameError>
    ensures { ReadsName result (provider_at text.now) }
{
    match after(text, "providers/") {
        None => Err(NameError::Form),
        Some(provider) => ProviderId::read(alloc, provider),
    }
}
