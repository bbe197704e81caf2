ghost use Rattle.std.specs.Prelude.{◌≡◌, IfOk};
ghost use Rattle.gw_json.specs.Words.{Gives};
ghost use Rattle.gw_json.specs.Fields.{node_of};
ghost use Rattle.gw_text.specs.model.Routes.{is_core_service, backend_key};
ghost use Rattle.gw_route.specs.Backends as backends;

use crate::filter::FilterForm;
use crate::plain::BackendRef;
use gw_forms as forms;
use gw_json::{Cursor, Form, Number32, Port, Refusal};
use gw_text::{Key, NamespaceName, NoMemory, Text};
use std::alloc::Global;

fn is_service(group: &Text, kind: &Text) -> bool
    ensures { result ≡ is_core_service group.now kind.now }
{
    if !group.bytes().is_empty() {
        return false;
    }
    kind.bytes() == b"Service".as_slice()
}

impl BackendRef {
    /// Whether its group and kind are those of a Service.
    pub fn names_service(&self) -> bool
        ensures { result ≡ is_core_service self.now.group self.now.kind }
    {
        is_service(&self.group, &self.kind)
    }

    /// The key that it names.
    pub fn key(&self, alloc: Global) -> Result<Key, NoMemory>
        ensures { IfOk result (λ key. key ≡ backend_key self.now) }
    {
        Ok(Key::new(self.namespace.copy(alloc)?, self.name.copy(alloc)?))
    }
}

#[tactic(auto, unfolding(crate::specs::Backends::backend_port_of))]
fn backend_port(alloc: Global, of_service: bool, at: &Cursor<'_>) -> Result<Option<u16>, Refusal>
    ensures { Gives (λ n. n) result (backends.backend_port_of of_service (node_of at.now)) }
{
    if of_service {
        return Ok(Some(at.needed(alloc, "port", Port)?));
    }
    at.given(alloc, "port", Port)
}

// A share of a rule's requests.
const WEIGHT: Number32 = Number32 {
    least: 0,
    most: 1_000_000,
};

/// A backendRef of a Route of the namespace `own`.
#[derive(Clone, Copy)]
pub struct BackendIn<'o> {
    pub own: &'o NamespaceName,
}

impl<'o> Form for BackendIn<'o> {
    type Value = BackendRef;

    ghost seen = { λ value. value };

    ghost of = { λ form. backends.backend_of form.own.now };

    #[tactic(auto, unfolding(crate::specs::Backends::backend_of))]
    fn read(&self, alloc: Global, at: &Cursor<'_>) -> Result<BackendRef, Refusal> {
        let group = at.defaulted(alloc, "group", forms::Word, Text::of(alloc, "")?)?;
        let kind = at.defaulted(alloc, "kind", forms::Word, Text::of(alloc, "Service")?)?;
        let name = at.needed(alloc, "name", forms::Name)?;
        let namespace = at.defaulted(alloc, "namespace", forms::Namespace, self.own.copy(alloc)?)?;
        let port = backend_port(alloc, is_service(&group, &kind), at)?;
        let weight = at.defaulted(alloc, "weight", WEIGHT, 1)?;
        let filters = at.listed(alloc, "filters", 16, FilterForm)?;
        Ok(BackendRef {
            group,
            kind,
            name,
            namespace,
            port,
            weight,
            filters,
        })
    }
}
