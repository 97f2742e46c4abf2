ghost use Rattle.std.specs.Prelude.{◌≡◌, [], true, None, IfOk};
ghost use Rattle.iam_names.specs.Audience.{is_audience};
ghost use Rattle.pools.specs.Providers as providers;
ghost use Rattle.pools.specs.Providers.{subject_claim as subject_of_claims};

use crate::Mapping;
use base_types::{Boxed, Items, Text, TextMap, both};
use cel_expression::Expression;
use cel_values::Expr;
use iam_names::Audience;
use service_config::Key;
use std::alloc::{AllocError, Global};
use std::marker::Model;

/// Who signs subject tokens, and for whom.
#[derive(Debug, Drop)]
pub struct TokenIssuer {
    /// The `iss` of the tokens.
    pub name: Text,
    /// The key that they are signed with.
    pub key: Key,
    /// The audiences that are accepted. None is for those that the provider's name gives.
    pub audiences: Items<Text>,
}

/// A provider of subject tokens: whom it vouches for, and how its claims become a principal.
#[derive(Debug, Drop)]
pub struct Provider {
    name: Audience,
    issuer: TokenIssuer,
    mapping: Mapping,
    condition: Option<Expression>,
    disabled: bool,
}

impl Model for Provider {
    ghost use Rattle.std.specs.Coded.{codes};
    ghost use Rattle.cel_values.specs.contracts.expr.Expr as tree;
    ghost use Rattle.pools.specs.Providers.{ProviderView, IsFormed};

    ghost Value = { ProviderView };

    ghost coded = { Prim.hlevel (codes, tree.the_row.coded) };

    ghost view = { λ p. record {
      name = p.name;
      issuer = p.issuer.name;
      key = p.issuer.key;
      audiences = p.issuer.audiences;
      mapping = p.mapping;
      condition = p.condition;
      disabled = p.disabled;
    } };

    ghost invariant = { λ p. IsFormed (record {
      name = p.name;
      issuer = p.issuer.name;
      key = p.issuer.key;
      audiences = p.issuer.audiences;
      mapping = p.mapping;
      condition = p.condition;
      disabled = p.disabled;
    }) };
}

impl Provider {
    ghost use Rattle.std.specs.Prelude.{◌≡◌, ◌≤◌, true, IfOk, length};
    ghost use Rattle.std.specs.List.{list_all};
    ghost use Rattle.std.specs.Option.{option_copied};
    ghost use Rattle.iam_names.specs.Forms.{is_attribute_name};
    ghost use Rattle.pools.specs.Providers as providers;

    pub fn new(
        name: Audience,
        issuer: TokenIssuer,
        mapping: Mapping,
        condition: Option<Expression>,
        disabled: bool,
    ) -> Self
        requires { list_all (λ row. is_attribute_name row.0) mapping.attributes ≡ true }
        ensures { result ≡ record {
          name = name;
          issuer = issuer.name;
          key = issuer.key;
          audiences = issuer.audiences;
          mapping = mapping;
          condition = condition;
          disabled = disabled;
        } }
    {
        parts_have_their_forms(&name);
        // Its contract says that the names rise.
        let _ = mapping.attributes.len();
        Provider {
            name,
            issuer,
            mapping,
            condition,
            disabled,
        }
    }

    /// A provider that maps the claim `sub` to the subject, and no more: enabled, without a condition.
    pub fn of_subject(
        alloc: Global,
        name: Audience,
        issuer: TokenIssuer,
    ) -> Result<Self, AllocError>
        ensures { IfOk result (λ provider. provider ≡ providers.of_subject name issuer) }
    {
        match subject_mapping(alloc) {
            Ok(mapping) => Ok(Provider::new(name, issuer, mapping, None, false)),
            Err(AllocError) => {
                drop(name);
                drop(issuer);
                Err(AllocError)
            }
        }
    }

    /// A law: its name and the names of its attributes have their forms, and the attributes stand in byte order.
    pub fn has_its_form(&self)
        ensures { providers.IsFormed self.now }
    {
        let _ = &self.name;
    }

    pub fn name(&self) -> &Audience
        ensures { result.now ≡ self.now.name }
    {
        &self.name
    }

    /// The `iss` of its tokens.
    pub fn issuer(&self) -> &str
        ensures { result.now ≡ self.now.issuer }
    {
        self.issuer.name.as_str()
    }

    /// The key that its tokens are signed with.
    pub fn key(&self) -> &[u8]
        ensures key { result.now ≡ self.now.key }
        ensures enough { 32 ≤ length self.now.key }
    {
        self.issuer.key.as_slice()
    }

    /// The audiences that it accepts. None is for those that its name gives.
    pub fn audiences(&self) -> &[Text]
        ensures { result.now ≡ self.now.audiences }
    {
        self.issuer.audiences.as_slice()
    }

    pub fn mapping(&self) -> &Mapping
        ensures { result.now ≡ self.now.mapping }
    {
        &self.mapping
    }

    pub fn condition(&self) -> Option<&Expression>
        ensures { option_copied result ≡ self.now.condition }
    {
        self.condition.as_ref()
    }

    pub fn is_disabled(&self) -> bool
        ensures { result ≡ self.now.disabled }
    {
        self.disabled
    }
}

// The claim `sub` is the subject.
fn subject_mapping(alloc: Global) -> Result<Mapping, AllocError>
    ensures { IfOk result (λ mapping. mapping ≡ record { subject = subject_of_claims; groups = None; attributes = [] }) }
{
    Ok(Mapping {
        subject: subject_claim(alloc)?,
        groups: None,
        attributes: TextMap::new(alloc),
    })
}

fn subject_claim(alloc: Global) -> Result<Expression, AllocError>
    ensures { IfOk result (λ e. e ≡ providers.subject_claim) }
{
    let text = Text::copy_of(alloc, "assertion.sub")?;
    let (text, tree) = both(Ok(text), subject_tree(alloc))?;
    Ok(Expression { text, tree })
}

fn subject_tree(alloc: Global) -> Result<Expr, AllocError>
    ensures { IfOk result (λ tree. tree ≡ providers.subject_claim.tree) }
{
    let of = Boxed::new(alloc, Expr::Name(Text::copy_of(alloc, "assertion")?))?;
    let (of, field) = both(Ok(of), Text::copy_of(alloc, "sub"))?;
    Ok(Expr::Select(of, field))
}

// The parts of a name have their forms by their types.
fn parts_have_their_forms(name: &Audience)
    ensures { is_audience name.now ≡ true }
{
    let _project = name.pool.project.as_str();
    let _pool = name.pool.pool.as_str();
    let _provider = name.provider.as_str();
}
