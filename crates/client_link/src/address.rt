const HTTP_PORT: u16 = 80;

/// The host and the port of a request's Host field, port 80 where it names none.
pub(crate) fn address_in(request: &[u8]) -> Option<(&str, u16)> {
    let text = std::str::from_utf8(request).ok()?;
    for line in text.split("\r\n") {
        if line.is_empty() {
            return None;
        }
        if let Some((name, value)) = line.split_once(':') {
            if name.eq_ignore_ascii_case("host") {
                return address_of(value.trim());
            }
        }
    }
    None
}

fn address_of(host: &str) -> Option<(&str, u16)> {
    match host.split_once(':') {
        None => Some((host, HTTP_PORT)),
        Some((name, port)) => match port.parse::<u16>() {
            Ok(port) => Some((name, port)),
            Err(_) => None,
        },
    }
}
