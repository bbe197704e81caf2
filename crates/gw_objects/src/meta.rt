ghost use Rattle.std.specs.Prelude.{◌≡◌, codes, Ok};
ghost use Rattle.gw_json.specs.Words.{Gives};
ghost use Rattle.gw_json.specs.Fields.{node_of};
ghost use Rattle.gw_objects.specs.Metadata as metadata;

use crate::fields::CREATION_TIMESTAMP;
use gw_forms as forms;
use gw_json::{Cursor, Form, Number64, Refusal};
use gw_text::{Key, Kind, Meta, NamespaceName};
use std::alloc::Global;

// An int64 that is not negative.
const GENERATION: Number64 = Number64 {
    least: 0,
    most: 9_223_372_036_854_775_807,
};

fn is_namespaced(kind: &str) -> bool
    ensures { result ≡ metadata.is_namespaced kind.now }
{
    match Kind::named(kind) {
        Some(kind) => kind.is_namespaced(),
        None => false,
    }
}

#[tactic(auto, unfolding(crate::specs::Metadata::namespace_in, gw_json::specs::Presence::defaulted))]
fn namespace(alloc: Global, kind: &str, at: &Cursor<'_>) -> Result<NamespaceName, Refusal>
    ensures { Gives (λ x. x) result (metadata.namespace_in kind.now (node_of at.now)) }
{
    if !is_namespaced(kind) {
        return Ok(NamespaceName::none(alloc));
    }
    match at.field(alloc, "namespace")? {
        Some(found) => forms::Namespace.read_field(alloc, &found),
        None => default_namespace(alloc),
    }
}

// The name of the namespace where none is written.
fn default_namespace(alloc: Global) -> Result<NamespaceName, Refusal>
    ensures { Gives (λ x. x) result (Ok (codes "default")) }
{
    match NamespaceName::parse(alloc, "default") {
        Ok(name) => Ok(name),
        Err(_) => Err(Refusal::NoMemory),
    }
}

#[tactic(auto, unfolding(crate::specs::Metadata::key_in))]
fn key(alloc: Global, kind: &str, at: &Cursor<'_>) -> Result<Key, Refusal>
    ensures { Gives (λ x. x) result (metadata.key_in kind.now (node_of at.now)) }
{
    let name = at.needed(alloc, "name", forms::Name)?;
    let namespace = namespace(alloc, kind, at)?;
    Ok(Key::new(namespace, name))
}

/// The key of an object of this kind, of which nothing else is read. `at` is the whole object.
#[tactic(auto, unfolding(crate::specs::Metadata::key_of))]
pub fn read_key(alloc: Global, kind: &str, at: &Cursor<'_>) -> Result<Key, Refusal>
    ensures { Gives (λ x. x) result (metadata.key_of kind.now (node_of at.now)) }
{
    let metadata = at.need_object(alloc, "metadata")?;
    key(alloc, kind, &metadata)
}

/// The metadata of an object of this kind. `at` is the whole object.
#[tactic(auto, unfolding(crate::specs::Metadata::meta_of))]
pub fn read_meta(alloc: Global, kind: &str, at: &Cursor<'_>) -> Result<Meta, Refusal>
    ensures { Gives (λ x. x) result (metadata.meta_of kind.now (node_of at.now)) }
{
    let metadata = at.need_object(alloc, "metadata")?;
    let key = key(alloc, kind, &metadata)?;
    let created = metadata.given(alloc, CREATION_TIMESTAMP, forms::Moment)?;
    let generation = metadata.defaulted(alloc, "generation", GENERATION, 1)?;
    Ok(Meta {
        key,
        created,
        generation,
    })
}
