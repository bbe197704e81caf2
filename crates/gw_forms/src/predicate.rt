//! What texts must be like.
ghost use Rattle.std.specs.Prelude.{◌≡◌};
ghost use Rattle.std.specs.List.{list_all};
ghost use Rattle.gw_text.specs.model.RouteForms as forms;

fn is_token(text: &[u8]) -> bool
    ensures { result ≡ forms.is_token text.now }
{
    http_header::is_token(text)
}

/// Whether the text is the name of a field of an HTTP message.
pub fn is_field_name(text: &[u8]) -> bool
    ensures { result ≡ forms.is_field_name text.now }
{
    text.len() <= 256 && is_token(text)
}

fn is_value_byte(b: u8) -> bool
    ensures { result ≡ forms.is_value_byte b }
{
    b == b'\t' || (b' ' <= b && b != 0x7f)
}

fn are_value_bytes(text: &[u8]) -> bool
    ensures { result ≡ list_all forms.is_value_byte text.now }
{
    text.iter().all(|b| is_value_byte(*b))
}

/// Whether the text is the value of such a field.
pub fn is_field_value(text: &[u8]) -> bool
    ensures { result ≡ forms.is_field_value text.now }
{
    text.len() <= 4096 && are_value_bytes(text)
}

fn is_path_byte(b: u8) -> bool
    ensures { result ≡ forms.is_path_byte b }
{
    b'!' <= b && b <= b'~' && b != b'?' && b != b'#'
}

fn are_path_bytes(text: &[u8]) -> bool
    ensures { result ≡ list_all forms.is_path_byte text.now }
{
    text.iter().all(|b| is_path_byte(*b))
}

#[tactic(auto, using(crate::proofs::FormLemmas::has_is))]
fn has(text: &str, part: &str) -> bool
    ensures { result ≡ forms.has text.now part.now }
{
    text.contains(part)
}

fn has_unwanted(text: &str) -> bool
    ensures { result ≡ forms.has_unwanted text.now }
{
    has(text, "//") || has(text, "/./") || has(text, "/../") || has(text, "%2f") || has(text, "%2F")
}

fn has_dot_end(text: &[u8]) -> bool
    ensures { result ≡ forms.has_dot_end text.now }
{
    text.ends_with(b"/.") || text.ends_with(b"/..")
}

/// Whether the text is the path of an Exact or PathPrefix match.
pub fn is_path(text: &str) -> bool
    ensures { result ≡ forms.is_path text.now }
{
    let bytes = text.as_bytes();
    bytes.len() <= 1024
        && bytes.starts_with(b"/")
        && are_path_bytes(bytes)
        && !has_unwanted(text)
        && !has_dot_end(bytes)
}

/// Whether the text may replace a path or its prefix.
pub fn is_replacement(text: &[u8]) -> bool
    ensures { result ≡ forms.is_replacement text.now }
{
    text.len() <= 1024 && are_path_bytes(text)
}

/// Whether the text is the name of a query parameter.
pub fn is_parameter_name(text: &[u8]) -> bool
    ensures { result ≡ forms.is_parameter_name text.now }
{
    1 <= text.len() && text.len() <= 256
}
