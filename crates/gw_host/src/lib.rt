// Which names a hostname covers, and which hostnames have a name in common.
#![tactic(auto)]

ghost use Rattle.std.specs.Prelude.{◌≡◌, ◌↔◌, ◌||◌, IsTrue};
ghost use Rattle.std.specs.Str.{bytes_eq};
ghost use Rattle.gw_text.specs.model.Hostnames.{covers, HaveCommonName, is_below, meets, precise_length, written_length};

use gw_text::Host;

/// Whether `h` stands for `name`. Both are in lower case.
pub fn covers(h: &Host, name: &[u8]) -> bool
    ensures { result ≡ covers h.now name.now }
{
    let text = h.text.bytes();
    if h.wild {
        name.len() > text.len() + 1 && is_below(name, text)
    } else {
        name == text
    }
}

/// Whether some name is covered by both.
pub fn meets(a: &Host, b: &Host) -> bool
    ensures value { result ≡ meets a.now b.now }
    ensures common_name { IsTrue result ↔ HaveCommonName a.now b.now }
{
    match (a.wild, b.wild) {
        (true, true) => have_common_suffix(a.text.bytes(), b.text.bytes()),
        (true, false) => covers(a, b.text.bytes()),
        (false, true) => covers(b, a.text.bytes()),
        (false, false) => a.text.bytes() == b.text.bytes(),
    }
}

/// The characters of a precise hostname, where a wildcard counts 0, and those of the hostname as it
/// is written, where a wildcard's `*.` counts two.
pub fn specificity(h: &Host) -> (usize, usize)
    ensures precise { result.0 ≡ precise_length h.now }
    ensures written { result.1 ≡ written_length h.now }
{
    let length = h.text.bytes().len();
    if h.wild {
        (0, length + 2)
    } else {
        (length, length)
    }
}

fn have_common_suffix(a: &[u8], b: &[u8]) -> bool
    ensures { result ≡ (bytes_eq a.now b.now || is_below a.now b.now || is_below b.now a.now) }
{
    a == b || is_below(a, b) || is_below(b, a)
}

fn is_below(name: &[u8], text: &[u8]) -> bool
    ensures { result ≡ is_below name.now text.now }
{
    match name.strip_suffix(text) {
        Some(front) => front.ends_with(b"."),
        None => false,
    }
}
