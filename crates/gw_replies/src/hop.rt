ghost use Rattle.std.specs.Prelude.{◌≡◌, ◌++◌, ℕ, List, filter, map, not, IfOk};
ghost use Rattle.std.specs.List.{list_any};
ghost use Rattle.gw_text.specs.model.Fields.{same_field_name};
ghost use Rattle.gw_replies.specs.model.Hops.{passed_back, passed_on, without};

use crate::options::Options;
use gw_text::{Field, Fields, NoMemory, Text};
use std::alloc::Global;

/// The names of a response's fields that concern the connection alone.
pub(crate) const RESPONSE_HOPS: &[&str] = &[
    "connection",
    "keep-alive",
    "proxy-connection",
    "trailer",
    "transfer-encoding",
    "upgrade",
    "content-length",
];

/// The names of a request's fields that concern the connection alone, or are written anew.
pub(crate) const REQUEST_HOPS: &[&str] = &[
    "host",
    "te",
    "expect",
    "connection",
    "keep-alive",
    "proxy-connection",
    "trailer",
    "transfer-encoding",
    "upgrade",
    "content-length",
];

/// The fields of a request that are passed on to a backend.
#[tactic(auto, using(crate::proofs::Hops::request_hops_are), unfolding(crate::specs::model::Hops::passed_on))]
pub fn passed_on(alloc: Global, fields: &Fields) -> Result<Fields, NoMemory>
    ensures { IfOk result (λ kept. kept ≡ passed_on fields.now) }
{
    without(alloc, REQUEST_HOPS, fields.as_slice())
}

/// The fields of a response that are passed back to a client.
#[tactic(auto, using(crate::proofs::Hops::response_hops_are), unfolding(crate::specs::model::Hops::passed_back))]
pub fn passed_back(alloc: Global, fields: &Fields) -> Result<Fields, NoMemory>
    ensures { IfOk result (λ kept. kept ≡ passed_back fields.now) }
{
    without(alloc, RESPONSE_HOPS, fields.as_slice())
}

// The fields without those of these names and those that Connection names.
fn without(alloc: Global, names: &[&str], fields: &[Field]) -> Result<Fields, NoMemory>
    ensures { IfOk result (λ kept. kept ≡ without (map (λ n. n.now) names.now) fields.now) }
{
    let options = Options::of(alloc, fields)?;
    others(alloc, names, &options, fields)
}

// The fields that have none of these names, and none of these options.
fn others(
    alloc: Global,
    names: &[&str],
    options: &Options<'_>,
    fields: &[Field],
) -> Result<Fields, NoMemory>
    ensures { IfOk result (λ kept. kept ≡ filter (λ f. not (list_any (same_field_name f.name) (map (λ n. n.now) names.now ++ options.now))) fields.now) }
{
    let mut kept = Vec::new(alloc);
    'fields: for field in fields {
        if !is_hop(field.name.bytes(), names, options) {
            kept.push(field.copy(alloc)?)?;
        }
    }
    Ok(Fields::from_vec(kept))
}

/// Whether the name is one of these names or options.
pub(crate) fn is_hop(name: &[u8], names: &[&str], options: &Options<'_>) -> bool
    ensures { result ≡ list_any (same_field_name name.now) (map (λ n. n.now) names.now ++ options.now) }
{
    is_among(name, names) || options.has(name)
}

fn is_among(name: &[u8], names: &[&str]) -> bool
    ensures { result ≡ list_any (λ other. same_field_name name.now other.now) names.now }
{
    names
        .iter()
        .any(|other| name.eq_ignore_ascii_case(other.as_bytes()))
}
