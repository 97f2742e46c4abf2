ghost use Rattle.std.specs.Prelude.{◌≡◌, ◌++◌, ◌∷◌, [], IfOk, OnOk, codes};
ghost use Rattle.std.specs.Option.{option_copied};
ghost use Rattle.cel_values.specs.declared.value.Value.{Value as Datum, out-Value};
ghost use Rattle.cel_eval.specs.Denotation.{denotation};
ghost use Rattle.cel_expression.specs.Environments.{entry};
ghost use Rattle.iam_names.specs.Cuts.{cut_at};
ghost use Rattle.allow_policy.specs.Conditions as conditions;

use base_types::{Items, Text, kept};
use cel_eval::eval;
use cel_expression::{Expression, bind, declare_map, put_entry};
use cel_types::{CelType, Declaration};
use cel_values::{Env, EvalStop, Expr, MapEntry, Value};
use iam_names::Resource;
use std::alloc::{AllocError, Global};

/// The last second of the year 9999.
const LAST_MOMENT: u64 = 253_402_300_799;

/// Whether a condition holds for a resource at a moment in seconds since 1970-01-01T00:00:00Z. It sees `resource`, a map with
/// `service` and `name`, and `request`, a map with `time`. A condition in error doesn't hold.
pub fn condition_holds(
    alloc: Global,
    condition: Option<&Expression>,
    resource: &Resource,
    now: u64,
) -> Result<bool, AllocError>
    ensures { IfOk result (λ holds. holds ≡ conditions.condition_holds (option_copied condition.entry) resource.now now) }
{
    let Some(condition) = condition else {
        return Ok(true);
    };
    let env = condition_env(alloc, resource.as_str(), now)?;
    let holds = is_true(alloc, &condition.tree, &env);
    drop(env);
    holds
}

/// The names that a condition sees, with their types.
pub fn condition_names(alloc: Global) -> Result<Items<Declaration>, AllocError>
    ensures { IfOk result (λ names. names ≡ conditions.condition_names) }
{
    let mut names = Items::new(alloc);
    let went = declare_all(alloc, &mut names);
    kept(names, went)
}

fn declare_all(alloc: Global, names: &mut Items<Declaration>) -> Result<(), AllocError>
    ensures { OnOk result (names.new ≡ names.old ++ conditions.condition_names) }
{
    declare_map(alloc, names, "resource", CelType::Text)?;
    declare_map(alloc, names, "request", CelType::Time)
}

fn condition_env(alloc: Global, resource: &str, now: u64) -> Result<Env, AllocError>
    ensures { IfOk result (λ env. env ≡ conditions.condition_env resource.now now) }
{
    let mut env = Items::new(alloc);
    let went = bind_all(alloc, &mut env, resource, now);
    kept(env, went)
}

fn bind_all(alloc: Global, env: &mut Env, resource: &str, now: u64) -> Result<(), AllocError>
    ensures { OnOk result (env.new ≡ env.old ++ conditions.condition_env resource.now now) }
{
    let resource = resource_value(alloc, resource)?;
    bind(alloc, env, "resource", resource)?;
    let request = request_value(alloc, now)?;
    bind(alloc, env, "request", request)
}

fn resource_value(alloc: Global, resource: &str) -> Result<Value, AllocError>
    ensures { IfOk result (λ value. value ≡ conditions.resource_value resource.now) }
{
    let (service, name) = service_and_name(resource);
    let mut entries = Items::new(alloc);
    let went = put_resource(alloc, &mut entries, service, name);
    Ok(Value::Map(kept(entries, went)?))
}

fn put_resource(
    alloc: Global,
    entries: &mut Items<MapEntry>,
    service: &str,
    name: &str,
) -> Result<(), AllocError>
    ensures { OnOk result (entries.new ≡ entries.old ++ entry (codes "name") (Datum.Text name.now) ∷ entry (codes "service") (Datum.Text service.now) ∷ []) }
{
    put_entry(
        alloc,
        entries,
        "name",
        Value::Text(Text::copy_of(alloc, name)?),
    )?;
    put_entry(
        alloc,
        entries,
        "service",
        Value::Text(Text::copy_of(alloc, service)?),
    )
}

// The service of a resource, and its name there.
fn service_and_name(resource: &str) -> (&str, &str)
    ensures { (result.0.now, result.1.now) ≡ conditions.service_and_name resource.now }
{
    parted(path_of(resource))
}

fn path_of(resource: &str) -> &str
    ensures { result.now ≡ conditions.path_of resource.now }
{
    resource.strip_prefix("//").unwrap_or("")
}

fn parted(path: &str) -> (&str, &str)
    ensures { (result.0.now, result.1.now) ≡ conditions.parted path.now (cut_at 47 path.now) }
{
    path.split_once('/').unwrap_or((path, ""))
}

fn request_value(alloc: Global, now: u64) -> Result<Value, AllocError>
    ensures { IfOk result (λ value. value ≡ conditions.request_value now) }
{
    let time = now.min(LAST_MOMENT) as i64;
    let mut entries = Items::new(alloc);
    let went = put_entry(alloc, &mut entries, "time", Value::Time(time));
    Ok(Value::Map(kept(entries, went)?))
}

fn is_true(alloc: Global, condition: &Expr, env: &Env) -> Result<bool, AllocError>
    ensures { IfOk result (λ holds. holds ≡ conditions.holds_as (denotation condition.now env.now)) }
{
    match eval(alloc, condition, env) {
        Ok(value) => {
            let holds = is_true_value(&value);
            drop(value);
            Ok(holds)
        }
        Err(EvalStop::Error(_)) => Ok(false),
        Err(EvalStop::Memory) => Err(AllocError),
    }
}

fn is_true_value(value: &Value) -> bool
    ensures { result ≡ conditions.is_true (out-Value value.now) }
{
    match value {
        Value::Bool(holds) => *holds,
        _ => false,
    }
}
