ghost use Rattle.std.specs.Prelude.{◌≡◌, ◌++◌, IfOk, OnOk, string_bytes};
ghost use Rattle.client_proto.specs.Requests as requests;

use crate::config::{ClientConfig, Url};
use base_types::Bytes;
use form_urlencoded::Serializer;
use std::alloc::{AllocError, Global};

const GRANT_TYPE: &str = "urn:ietf:params:oauth:grant-type:token-exchange";

const ACCESS_TOKEN_TYPE: &str = "urn:ietf:params:oauth:token-type:access_token";

const EVERY_PERMISSION: &str = "https://www.googleapis.com/auth/cloud-platform";

const ACCOUNT_BODY: &str =
    "{\"lifetime\":\"3600s\",\"scope\":[\"https://www.googleapis.com/auth/cloud-platform\"]}";

/// The request that exchanges a subject token for an access token.
#[tactic(auto, unfolding(crate::specs::Requests::exchange_text))]
pub fn exchange_request(
    alloc: Global,
    config: &ClientConfig,
    subject: &str,
) -> Result<Bytes, AllocError>
    ensures { IfOk result (λ request. request ≡ requests.exchange_text config.now subject.now) }
{
    let body = exchange_form(alloc, config, subject)?;
    let body = body.as_str();
    let form_type = "application/x-www-form-urlencoded";
    let mut text = front_lines(alloc, &config.token, form_type, body.len())?;
    put_end(&mut text, body)?;
    Ok(Bytes::new(text.into_bytes()))
}

/// The request that asks for a token of a service account by an access token.
#[tactic(auto, unfolding(crate::specs::Requests::account_text))]
pub fn account_request(alloc: Global, url: &Url, token: &str) -> Result<Bytes, AllocError>
    ensures { IfOk result (λ request. request ≡ requests.account_text url.now token.now) }
{
    let mut text = front_lines(alloc, url, "application/json", ACCOUNT_BODY.len())?;
    put_line(&mut text, bearer_line(alloc, token)?.as_str())?;
    put_end(&mut text, ACCOUNT_BODY)?;
    Ok(Bytes::new(text.into_bytes()))
}

#[tactic(auto, unfolding(crate::specs::Requests::exchange_form))]
fn exchange_form(alloc: Global, config: &ClientConfig, subject: &str) -> Result<String, AllocError>
    ensures { IfOk result (λ form. string_bytes form ≡ requests.exchange_form config.now subject.now) }
{
    let audience = config.audience.print(alloc)?;
    let mut form = Serializer::new(String::new(alloc));
    form.append_pair("audience", audience.as_str())?;
    form.append_pair("grant_type", GRANT_TYPE)?;
    form.append_pair("requested_token_type", ACCESS_TOKEN_TYPE)?;
    form.append_pair("scope", EVERY_PERMISSION)?;
    form.append_pair("subject_token", subject)?;
    form.append_pair("subject_token_type", config.token_type.as_str())?;
    Ok(form.finish())
}

// Puts a line and its end behind the others.
fn put_line(text: &mut String, line: &str) -> Result<(), AllocError>
    ensures { OnOk result (string_bytes text.new ≡ string_bytes text.old ++ requests.line line.now) }
{
    text.push_str(line)?;
    text.push_str("\r\n")
}

// Puts the last field, an empty line and the body behind the others.
fn put_end(text: &mut String, body: &str) -> Result<(), AllocError>
    ensures { OnOk result (string_bytes text.new ≡ requests.closed_by (string_bytes text.old) body.now) }
{
    put_line(text, "Connection: close")?;
    text.push_str("\r\n")?;
    text.push_str(body)
}

fn request_line(alloc: Global, url: &Url) -> Result<String, AllocError>
    ensures { IfOk result (λ line. string_bytes line ≡ requests.request_line url.now) }
{
    let path = url.path.as_str();
    format!(in alloc; "POST {path} HTTP/1.1")
}

fn host_line(alloc: Global, url: &Url) -> Result<String, AllocError>
    ensures { IfOk result (λ line. string_bytes line ≡ requests.host_line url.now) }
{
    let host = url.host.as_str();
    match url.port {
        None => format!(in alloc; "Host: {host}"),
        Some(port) => format!(in alloc; "Host: {host}:{port}"),
    }
}

fn type_line(alloc: Global, name: &str) -> Result<String, AllocError>
    ensures { IfOk result (λ line. string_bytes line ≡ requests.type_line name.now) }
{
    format!(in alloc; "Content-Type: {name}")
}

fn bearer_line(alloc: Global, token: &str) -> Result<String, AllocError>
    ensures { IfOk result (λ line. string_bytes line ≡ requests.bearer_line token.now) }
{
    format!(in alloc; "Authorization: Bearer {token}")
}

fn length_line(alloc: Global, size: usize) -> Result<String, AllocError>
    ensures { IfOk result (λ line. string_bytes line ≡ requests.length_line size) }
{
    format!(in alloc; "Content-Length: {size}")
}

// The lines of a request for a body of this type and size.
#[tactic(auto, unfolding(crate::specs::Requests::front_lines))]
fn front_lines(alloc: Global, url: &Url, name: &str, size: usize) -> Result<String, AllocError>
    ensures { IfOk result (λ text. string_bytes text ≡ requests.front_lines url.now name.now size) }
{
    let mut text = String::new(alloc);
    put_line(&mut text, request_line(alloc, url)?.as_str())?;
    put_line(&mut text, host_line(alloc, url)?.as_str())?;
    put_line(&mut text, type_line(alloc, name)?.as_str())?;
    put_line(&mut text, length_line(alloc, size)?.as_str())?;
    Ok(text)
}
