ghost use Rattle.std.specs.Prelude.{◌≡◌, IfOk, IsTrue};
ghost use Rattle.gw_text.specs.model.Matches.{path_fits};
ghost use Rattle.gw_filters.specs.model.Locations.{host_of, target_of};

use crate::path::{modified, push_query};
use gw_frames::Request;
use gw_route::{PathMatch, Rewrite};
use gw_text::{NoMemory, Text};
use std::alloc::Global;

/// The target and the host of a request after a rewrite.
pub fn rewrite(
    alloc: Global,
    w: &Rewrite,
    m: &PathMatch,
    request: &Request,
) -> Result<(Text, Text), NoMemory>
    requires { IsTrue (path_fits m.now request.now.path) }
    ensures { IfOk result (λ rewritten. (rewritten.0 ≡ target_of w.now m.now request.now) × (rewritten.1 ≡ host_of w.now request.now)) }
{
    Ok((target(alloc, w, m, request)?, host(alloc, w, request)?))
}

fn target(alloc: Global, w: &Rewrite, m: &PathMatch, request: &Request) -> Result<Text, NoMemory>
    requires { IsTrue (path_fits m.now request.now.path) }
    ensures { IfOk result (λ target. target ≡ target_of w.now m.now request.now) }
{
    let path = modified(alloc, &w.path, m, &request.path)?;
    let mut target = Vec::from_slice(alloc, path.bytes())?;
    push_query(&mut target, &request.query)?;
    Ok(Text::from_vec(target))
}

fn host(alloc: Global, w: &Rewrite, request: &Request) -> Result<Text, NoMemory>
    ensures { IfOk result (λ host. host ≡ host_of w.now request.now) }
{
    match &w.hostname {
        Some(hostname) => hostname.copy(alloc),
        None => request.authority.copy(alloc),
    }
}
