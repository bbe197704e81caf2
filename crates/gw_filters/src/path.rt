ghost use Rattle.std.specs.Prelude.{◌≡◌, ◌∷◌, ◌++◌, IfOk, OnOk, IsTrue, option_map};
ghost use Rattle.gw_route.specs.SeenModifier.{seen_modifier};
ghost use Rattle.gw_text.specs.model.Matches.{path_fits};
ghost use Rattle.gw_filters.specs.model.Locations.{full_path, modified, query_text};

use gw_path::replace_prefix;
use gw_query::Query;
use gw_route::{PathMatch, PathModifier};
use gw_text::{NoMemory, Text};
use std::alloc::Global;

/// What becomes of a path that the match fits.
pub fn modified(
    alloc: Global,
    modifier: &Option<PathModifier>,
    m: &PathMatch,
    path: &Text,
) -> Result<Text, NoMemory>
    requires { IsTrue (path_fits m.now path.now) }
    ensures { IfOk result (λ text. text ≡ modified (option_map seen_modifier modifier.now) m.now.value path.now) }
{
    match modifier {
        Some(PathModifier::ReplaceFullPath(value)) => full_path(alloc, value),
        Some(PathModifier::ReplacePrefixMatch(value)) => {
            replace_prefix(alloc, path.bytes(), m.value.bytes(), value.bytes())
        }
        Some(PathModifier::Other(_)) | None => path.copy(alloc),
    }
}

fn full_path(alloc: Global, value: &Text) -> Result<Text, NoMemory>
    ensures { IfOk result (λ path. path ≡ full_path value.now) }
{
    if value.bytes().starts_with(b"/") {
        return value.copy(alloc);
    }
    let mut path = Vec::from_slice(alloc, b"/")?;
    path.extend_from_slice(value.bytes())?;
    Ok(Text::from_vec(path))
}

/// Puts the query behind a path.
pub fn push_query(text: &mut Vec<u8>, query: &Option<Query>) -> Result<(), NoMemory>
    ensures { OnOk result (text.new.items ≡ text.old.items ++ query_text query.now) }
{
    match query {
        Some(query) => push_behind(text, b'?', query.bytes()),
        None => Ok(()),
    }
}

fn push_behind(text: &mut Vec<u8>, mark: u8, more: &[u8]) -> Result<(), NoMemory>
    ensures { OnOk result (text.new.items ≡ text.old.items ++ mark ∷ more.now) }
{
    text.push(mark)?;
    text.extend_from_slice(more)?;
    Ok(())
}
