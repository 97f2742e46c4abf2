ghost use Rattle.std.specs.Prelude.{◌≡◌, IfOk, option_map};
ghost use Rattle.exchange_form.specs.Forms as forms;

use base_types::{Items, Text};
use std::alloc::{AllocError, Global};

/// A parameter of a form: its name and its value, decoded.
#[derive(Debug, Drop)]
pub struct Parameter {
    pub name: Text,
    pub value: Text,
}

/// The parameters of a form (application/x-www-form-urlencoded), in order.
pub fn read_form(alloc: Global, body: &[u8]) -> Result<Items<Parameter>, AllocError>
    ensures { IfOk result (λ form. form ≡ forms.form_of body.now) }
{
    let mut form = Items::new(alloc);
    for pair in form_urlencoded::parse(alloc, body) {
        let (name, value) = pair?;
        form.push(decoded(alloc, &name, &value)?)?;
    }
    Ok(form)
}

fn decoded(alloc: Global, name: &str, value: &str) -> Result<Parameter, AllocError>
    ensures { IfOk result (λ parameter. parameter ≡ record { name = name.now; value = value.now }) }
{
    Ok(Parameter {
        name: Text::copy_of(alloc, name)?,
        value: Text::copy_of(alloc, value)?,
    })
}

/// Whether each name and each value was UTF-8.
pub fn is_all_text(form: &[Parameter]) -> bool
    ensures { result ≡ forms.is_all_text form.now }
{
    form.iter().all(|parameter| is_text(parameter))
}

fn is_text(parameter: &Parameter) -> bool
    ensures { result ≡ forms.is_text parameter.now }
{
    let name = !holds_replacement(parameter.name.as_str().as_bytes());
    let value = !holds_replacement(parameter.value.as_str().as_bytes());
    name && value
}

/// The value of a parameter that has exactly one.
pub fn once<'a>(form: &'a [Parameter], name: &str) -> Option<&'a str>
    ensures { option_map (λ value. value.now) result ≡ forms.once name.now form.now }
{
    let mut found: Option<&'a str> = None;
    for parameter in form {
        if has_value(parameter, name) {
            if found.is_some() {
                return None;
            }
            found = Some(parameter.value.as_str());
        }
    }
    found
}

fn has_value(parameter: &Parameter, name: &str) -> bool
    ensures { result ≡ forms.has_value name.now parameter.now }
{
    let named = parameter.name.as_str() == name;
    let there = parameter.value.as_str().len() > 0;
    named && there
}

/// Whether a parameter has no value.
pub fn is_absent(form: &[Parameter], name: &str) -> bool
    ensures { result ≡ forms.is_absent form.now name.now }
{
    for parameter in form {
        if has_value(parameter, name) {
            return false;
        }
    }
    true
}

/// Whether a parameter has a value twice.
#[tactic(auto, using(crate::proofs::Ones::has_two_is))]
pub(crate) fn is_repeated(form: &[Parameter], name: &str) -> bool
    ensures { result ≡ forms.is_repeated form.now name.now }
{
    !is_absent(form, name) && once(form, name).is_none()
}

// Whether U+FFFD is there, which stands for bytes that are no UTF-8.
fn holds_replacement(text: &[u8]) -> bool
    ensures { result ≡ forms.holds_replacement text.now }
{
    let mut rest = text;
    'bytes: while let [a, after @ ..] = rest {
        if let [b, c, ..] = after {
            if *a == 239 && *b == 191 && *c == 189 {
                return true;
            }
        }
        rest = after;
    }
    false
}
