// Which paths an Exact or a PathPrefix match fits, and the path with its matched prefix replaced.
#![tactic(auto)]

ghost use Rattle.std.specs.Prelude.{◌≡◌, ◌↔◌, IfOk, IsTrue};
ghost use Rattle.gw_text.specs.model.Matches.{fits_by};
ghost use Rattle.gw_text.specs.model.Paths.{BeginsWithPrefix, EndsElement, is_path_prefix, path_or_root, rooted, with_prefix_replaced, without_slash};

use gw_text::{NoMemory, PathMatchType, Text};
use std::alloc::Global;

/// Whether a match of type Exact fits. Case counts.
pub fn exact_fits(value: &[u8], path: &[u8]) -> bool
    ensures { IsTrue result ↔ (value.now ≡ path.now) }
{
    value == path
}

/// Whether a match of type PathPrefix fits: `/abc` and `/abc/` fit `/abc`, `/abc/` and `/abc/def`, and not `/abcd`.
pub fn prefix_fits(value: &[u8], path: &[u8]) -> bool
    ensures elements { result ≡ is_path_prefix value.now path.now }
    ensures bytes { IsTrue result ↔ BeginsWithPrefix value.now path.now }
{
    match path.strip_prefix(trimmed(value)) {
        Some(rest) => ends_element(rest),
        None => false,
    }
}

/// Whether a match of this type fits. One of a type that isn't read further fits no path.
pub fn fits_by(sort: &PathMatchType, value: &[u8], path: &[u8]) -> bool
    ensures { result ≡ fits_by sort.now value.now path.now }
{
    match sort {
        PathMatchType::Exact => exact_fits(value, path),
        PathMatchType::PathPrefix => prefix_fits(value, path),
        PathMatchType::Other(_) => false,
    }
}

/// The path with `with` in the place of `prefix`, as ReplacePrefixMatch asks for. It is never empty.
pub fn replace_prefix(
    alloc: Global,
    path: &[u8],
    prefix: &[u8],
    with: &[u8],
) -> Result<Text, NoMemory>
    requires { IsTrue (is_path_prefix prefix.now path.now) }
    ensures { IfOk result (λ text. text ≡ with_prefix_replaced path.now prefix.now with.now) }
{
    let (_, rest) = path.split_at(trimmed(prefix).len());
    let mut replaced = to_rooted(alloc, trimmed(with))?;
    replaced.extend_from_slice(rest)?;
    if replaced.is_empty() {
        return Text::from_bytes(alloc, b"/");
    }
    Text::from_bytes(alloc, replaced.as_slice())
}

fn ends_element(rest: &[u8]) -> bool
    ensures { IsTrue result ↔ EndsElement rest.now }
{
    rest.is_empty() || rest.starts_with(b"/")
}

fn trimmed(value: &[u8]) -> &[u8]
    ensures { result.now ≡ without_slash value.now }
{
    if value.ends_with(b"/") {
        &value[..value.len() - 1]
    } else {
        value
    }
}

fn to_rooted(alloc: Global, text: &[u8]) -> Result<Vec<u8>, NoMemory>
    ensures { IfOk result (λ path. path.items ≡ rooted text.now) }
{
    let mut path = Vec::new(alloc);
    if !text.is_empty() && !text.starts_with(b"/") {
        path.push(b'/')?;
    }
    path.extend_from_slice(text)?;
    Ok(path)
}
