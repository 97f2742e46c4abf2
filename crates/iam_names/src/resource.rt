ghost use Rattle.std.specs.Prelude.{◌≡◌, IfOk};
ghost use Rattle.iam_names.specs.Resource as resource;

use crate::bytes::begins_with_slash;
use crate::cut::after;
use crate::forms::{Account, Resource};
use base_types::Text;
use std::alloc::{AllocError, Global};

/// Whether both are the same, or the lower begins with the upper and a slash.
pub fn covers(upper: &Resource, lower: &Resource) -> bool
    ensures { result ≡ resource.covers upper.now lower.now }
{
    covers_text(upper.as_str(), lower.as_str())
}

/// The same of two resources' texts.
pub fn covers_text(upper: &str, lower: &str) -> bool
    ensures { result ≡ resource.covers upper.now lower.now }
{
    upper == lower || is_below(upper, lower)
}

fn is_below(upper: &str, lower: &str) -> bool
    ensures { result ≡ resource.is_below upper.now lower.now }
{
    match after(lower, upper) {
        None => false,
        Some(rest) => begins_with_slash(rest),
    }
}

/// The resource that an account is: `//iam.googleapis.com/projects/-/serviceAccounts/ACCOUNT`.
pub fn account_resource(alloc: Global, account: &Account) -> Result<Resource, AllocError>
    ensures { IfOk result (λ r. r ≡ resource.account_resource account.now) }
{
    let account = account.as_str();
    let text = format!(in alloc; "//iam.googleapis.com/projects/-/serviceAccounts/{account}")?;
    Ok(Resource::of_text(Text::new(text)))
}
