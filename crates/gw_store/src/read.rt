//! From a line of a watch to what it does.
ghost use Rattle.std.specs.Prelude.{◌≡◌, option_map, option_copied};
ghost use Rattle.serde_json.specs.View.{view};
ghost use Rattle.gw_json.specs.Words.{Gives};
ghost use Rattle.gw_json.specs.Fields.{node_of};
ghost use Rattle.gw_store.specs.Events as events;
ghost use Rattle.gw_store.specs.SeenEvents.{seen_object, seen_read, seen_written};

use crate::event::{Event, EventType, Object, Read};
use crate::incoming::IncomingSlice;
use gw_json::{Cursor, Refusal, read_value};
use gw_objects::{
    read_class, read_gateway, read_grant, read_key, read_meta, read_namespace, read_service,
    read_slice,
};
use gw_route::read_route;
use gw_text::{Incoming, Kind, Meta};
use serde_json::Value;
use std::alloc::Global;

/// An event as it is written, of whose object nothing but its version and its kind is read yet.
#[derive(Drop)]
pub struct Written<'v> {
    sort: EventType,
    version: &'v str,
    kind: &'v str,
    object: Cursor<'v>,
}

fn text_in<'v>(value: &'v Value, name: &str) -> Option<&'v str>
    ensures { option_copied result ≡ events.text_in name.now (view value.now) }
{
    match value.get(name) {
        Some(member) => member.as_str(),
        None => None,
    }
}

fn object_in<'v>(value: &'v Value, name: &str) -> Option<&'v Value>
    ensures { option_map (λ v. view v.now) result ≡ events.object_in name.now (view value.now) }
{
    match value.get(name) {
        Some(member) if member.is_object() => Some(member),
        _ => None,
    }
}

// The event that a value is.
#[tactic(auto, unfolding(crate::specs::Events::written_of))]
fn read_written<'v>(alloc: Global, value: &'v Value) -> Result<Written<'v>, Refusal>
    ensures { Gives seen_written result (events.written_of (view value.now)) }
{
    let Some(name) = text_in(value, "type") else {
        return Err(Refusal::NotEvent);
    };
    let Some(sort) = EventType::of(name) else {
        return Err(Refusal::NotEvent);
    };
    let Some(object) = object_in(value, "object") else {
        return Err(Refusal::NotEvent);
    };
    let Some(kind) = text_in(object, "kind") else {
        return Err(Refusal::NotEvent);
    };
    let Some(version) = text_in(object, "apiVersion") else {
        return Err(Refusal::NotEvent);
    };
    let object = Cursor::root(alloc, object)?;
    Ok(Written {
        sort,
        version,
        kind,
        object,
    })
}

fn read_body(alloc: Global, kind: Kind, meta: Meta, at: &Cursor<'_>) -> Result<Object, Refusal>
    ensures { Gives seen_object result (events.body_of kind meta (node_of at.now)) }
{
    match kind {
        Kind::GatewayClass => Ok(Object::GatewayClass(Incoming::new(
            alloc,
            read_class(alloc, meta, at)?,
        )?)),
        Kind::Gateway => Ok(Object::Gateway(Incoming::new(alloc, read_gateway(alloc, meta, at)?)?)),
        Kind::HttpRoute => Ok(Object::HttpRoute(Incoming::new(
            alloc,
            read_route(alloc, meta, at)?,
        )?)),
        Kind::ReferenceGrant => Ok(Object::ReferenceGrant(Incoming::new(
            alloc,
            read_grant(alloc, meta, at)?,
        )?)),
        Kind::Namespace => Ok(Object::Namespace(Incoming::new(
            alloc,
            read_namespace(alloc, meta, at)?,
        )?)),
        Kind::Service => Ok(Object::Service(Incoming::new(alloc, read_service(alloc, meta, at)?)?)),
        Kind::EndpointSlice => Ok(Object::EndpointSlice(IncomingSlice::new(
            alloc,
            read_slice(alloc, meta, at)?,
        )?)),
    }
}

#[tactic(auto, unfolding(crate::specs::Events::object_of))]
fn read_object(alloc: Global, kind: Kind, at: &Cursor<'_>) -> Result<Object, Refusal>
    ensures { Gives seen_object result (events.object_of kind (node_of at.now)) }
{
    let meta = read_meta(alloc, kind.name(), at)?;
    read_body(alloc, kind, meta, at)
}

fn read_put(alloc: Global, kind: Kind, at: &Cursor<'_>) -> Result<Read, Refusal>
    ensures { Gives seen_read result (events.read_by EventType.Added kind (node_of at.now)) }
{
    Ok(Read::Change(Event::Put(read_object(alloc, kind, at)?)))
}

fn read_removal(alloc: Global, kind: Kind, at: &Cursor<'_>) -> Result<Read, Refusal>
    ensures { Gives seen_read result (events.read_by EventType.Deleted kind (node_of at.now)) }
{
    let key = read_key(alloc, kind.name(), at)?;
    Ok(Read::Change(Event::Remove(kind, key)))
}

fn read_as(alloc: Global, kind: Option<Kind>, written: &Written<'_>) -> Result<Read, Refusal>
    ensures { Gives seen_read result (events.read_as kind (seen_written written.now)) }
{
    let Some(kind) = kind else {
        return Ok(Read::Skipped);
    };
    match written.sort {
        EventType::Added | EventType::Modified => read_put(alloc, kind, &written.object),
        EventType::Deleted => read_removal(alloc, kind, &written.object),
        EventType::Bookmark | EventType::Error => Ok(Read::Skipped),
    }
}

/// What a line says, without its line feed: a change, or nothing that concerns the objects that are held.
#[tactic(auto, unfolding(crate::specs::Events::read_of))]
pub fn read_event(alloc: Global, line: &[u8]) -> Result<Read, Refusal>
    ensures { Gives seen_read result (events.read_of line.now) }
{
    let value = read_value(alloc, line)?;
    let written = read_written(alloc, &value)?;
    read_as(alloc, Kind::of(written.version, written.kind), &written)
}
