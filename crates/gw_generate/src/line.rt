//! The lines of a script.
ghost use Rattle.std.specs.Prelude.{◌≡◌, ◌+◌, ◌++◌, ◌<◌, ◌≤◌, ◌^◌, [], ◌∷◌, length, decimal, string_bytes, OnOk};
ghost use Rattle.gw_generate.specs.Lines as lines;
ghost use Rattle.gw_generate.specs.Scripts.{text_of};

use gw_text::NoMemory;
use itoa::Buffer;

// How many requests a connection has.
const REQUESTS_OF_ONE: usize = 500;

/// The lines of the objects that all Routes need.
pub(crate) const OBJECTS: &str =
    r#"event {"type":"ADDED","object":{"apiVersion":"gateway.networking.k8s.io/v1","kind":"GatewayClass","metadata":{"name":"c"},"spec":{"controllerName":"gateward.example/controller"}}}
event {"type":"ADDED","object":{"apiVersion":"gateway.networking.k8s.io/v1","kind":"Gateway","metadata":{"name":"g"},"spec":{"gatewayClassName":"c","listeners":[{"name":"http","port":80,"protocol":"HTTP"}]}}}
event {"type":"ADDED","object":{"apiVersion":"v1","kind":"Service","metadata":{"name":"s"},"spec":{"ports":[{"port":80}]}}}
event {"type":"ADDED","object":{"apiVersion":"discovery.k8s.io/v1","kind":"EndpointSlice","metadata":{"name":"s-1","labels":{"kubernetes.io/service-name":"s"}},"addressType":"IPv4","ports":[{"port":8080}],"endpoints":[{"addresses":["10.0.0.1"]}]}}
"#;

/// The Route of this number of so many, and the publication behind it, if there is one.
pub(crate) fn push_route(
    script: &mut String,
    routes: usize,
    number: usize,
    digit: usize,
) -> Result<(), NoMemory>
    requires { number < routes }
    ensures lines { OnOk result (string_bytes script.new ≡ string_bytes script.old ++ text_of (lines.route_lines routes (number, digit))) }
    ensures size { OnOk result (length (string_bytes script.new) ≤ length (string_bytes script.old) + 512) }
{
    push_event(script, number, digit)?;
    if (number + 1) % 100 == 0 || number + 1 == routes {
        script.push_str("publish\n")?;
    }
    Ok(())
}

fn push_event(script: &mut String, number: usize, digit: usize) -> Result<(), NoMemory>
    ensures line { OnOk result (string_bytes script.new ≡ string_bytes script.old ++ text_of (lines.route_line number digit ∷ [])) }
    ensures size { OnOk result (length (string_bytes script.new) ≤ length (string_bytes script.old) + 500) }
{
    push_numbered(
        script,
        r#"event {"object":{"apiVersion":"gateway.networking.k8s.io/v1","kind":"HTTPRoute","metadata":{"name":"r"#,
        number,
    )?;
    push_numbered(script, r#""},"spec":{"hostnames":["h"#, number)?;
    push_numbered(
        script,
        r#".example.com"],"parentRefs":[{"name":"g"}],"rules":[{"backendRefs":[{"name":"s","port":80}],"matches":[{"path":{"type":"PathPrefix","value":"/p"#,
        digit,
    )?;
    script.push_str(r#""}}]}]}},"type":"ADDED"}"#)?;
    script.push_str("\n")?;
    Ok(())
}

/// The request of this number of so many, for the Route of this number, where the Routes have these digits.
pub(crate) fn push_request(
    script: &mut String,
    requests: usize,
    digits: &[usize],
    number: usize,
    route: usize,
) -> Result<(), NoMemory>
    requires number { number < requests }
    requires route { route < length digits.now }
    ensures lines { OnOk result (string_bytes script.new ≡ string_bytes script.old ++ text_of (lines.request_lines requests digits.now (number, route))) }
    ensures size { OnOk result (length (string_bytes script.new) ≤ length (string_bytes script.old) + 256) }
{
    push_open(script, number)?;
    push_send(script, number, route, digits[route])?;
    push_end(script, requests, number)?;
    Ok(())
}

// The first request of a connection opens it.
fn push_open(script: &mut String, number: usize) -> Result<(), NoMemory>
    ensures lines { OnOk result (string_bytes script.new ≡ string_bytes script.old ++ text_of (lines.open_lines number)) }
    ensures size { OnOk result (length (string_bytes script.new) ≤ length (string_bytes script.old) + 31) }
{
    if number % REQUESTS_OF_ONE != 0 {
        return Ok(());
    }
    push_numbered(script, "open c", number / REQUESTS_OF_ONE)?;
    script.push_str(" 0 0\n")?;
    Ok(())
}

// The last request of a connection, and of all, ends it.
fn push_end(script: &mut String, requests: usize, number: usize) -> Result<(), NoMemory>
    requires { number < requests }
    ensures lines { OnOk result (string_bytes script.new ≡ string_bytes script.old ++ text_of (lines.end_lines requests number)) }
    ensures size { OnOk result (length (string_bytes script.new) ≤ length (string_bytes script.old) + 26) }
{
    if (number + 1) % REQUESTS_OF_ONE == 0 || number + 1 == requests {
        push_numbered(script, "end c", number / REQUESTS_OF_ONE)?;
        script.push_str("\n")?;
    }
    Ok(())
}

fn push_send(script: &mut String, number: usize, route: usize, digit: usize) -> Result<(), NoMemory>
    ensures line { OnOk result (string_bytes script.new ≡ string_bytes script.old ++ text_of (lines.send_line number route digit ∷ [])) }
    ensures size { OnOk result (length (string_bytes script.new) ≤ length (string_bytes script.old) + 190) }
{
    push_numbered(script, "send c", number / REQUESTS_OF_ONE)?;
    push_numbered(script, " \"GET /p", digit)?;
    push_numbered(script, "/q", number)?;
    script.push_str(" HTTP/1.1\\r\\nHost: ")?;
    push_host(script, number, route)?;
    script.push_str("\\r\\n\\r\\n\"")?;
    script.push_str("\n")?;
    Ok(())
}

// Each eighth request is for a hostname that no Route has.
fn push_host(script: &mut String, number: usize, route: usize) -> Result<(), NoMemory>
    ensures host { OnOk result (string_bytes script.new ≡ string_bytes script.old ++ lines.host_of number route) }
    ensures size { OnOk result (length (string_bytes script.new) ≤ length (string_bytes script.old) + 33) }
{
    if number % 8 == 7 {
        script.push_str("nobody.example.org")?;
        return Ok(());
    }
    push_numbered(script, "h", route)?;
    script.push_str(".example.com")?;
    Ok(())
}

// A number behind a text.
fn push_numbered(script: &mut String, before: &str, number: usize) -> Result<(), NoMemory>
    ensures text { OnOk result (string_bytes script.new ≡ string_bytes script.old ++ before.now ++ decimal number) }
    ensures size { OnOk result (length (string_bytes script.new) ≤ length (string_bytes script.old) + length before.now + 20) }
{
    script.push_str(before)?;
    script.push_str(Buffer::new().format(number))?;
    Ok(())
}
