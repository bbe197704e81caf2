ghost use Rattle.std.specs.Prelude.{◌≡◌, IfOk};
ghost use Rattle.gw_text.specs.model.Kinds.{gateway_group};
ghost use Rattle.gw_text.specs.model.Routes.{names_gateway, parent_key};
ghost use Rattle.gw_route.specs.Parents as parents;

use crate::field_names::SECTION_NAME;
use crate::plain::ParentRef;
use gw_forms as forms;
use gw_json::{Cursor, Form, Port, Refusal};
use gw_text::{GATEWAY_GROUP, Key, NamespaceName, Text};
use std::alloc::{AllocError, Global};

fn group(alloc: Global) -> Result<Text, AllocError>
    ensures { IfOk result (λ group. group ≡ gateway_group) }
{
    Text::of(alloc, GATEWAY_GROUP)
}

impl ParentRef {
    /// Whether its group and kind are those of a Gateway.
    #[tactic(auto, unfolding(gw_text::specs::model::Kinds::gateway_group))]
    pub fn names_gateway(&self) -> bool
        ensures { result ≡ names_gateway self.now }
    {
        self.group.bytes() == GATEWAY_GROUP.as_bytes() && self.kind.bytes() == b"Gateway".as_slice()
    }

    /// The key that it names.
    pub fn key(&self, alloc: Global) -> Result<Key, AllocError>
        ensures { IfOk result (λ key. key ≡ parent_key self.now) }
    {
        Ok(Key::new(self.namespace.copy(alloc)?, self.name.copy(alloc)?))
    }
}

/// A parentRef of a Route of the namespace `own`.
#[derive(Clone, Copy)]
pub struct ParentIn<'o> {
    pub own: &'o NamespaceName,
}

impl<'o> Form for ParentIn<'o> {
    type Value = ParentRef;

    ghost seen = { λ value. value };

    ghost of = { λ form. parents.parent_of form.own.now };

    #[tactic(auto, unfolding(crate::specs::Parents::parent_of))]
    fn read(&self, alloc: Global, at: &Cursor<'_>) -> Result<ParentRef, Refusal> {
        Ok(ParentRef {
            group: at.defaulted(alloc, "group", forms::Word, group(alloc)?)?,
            kind: at.defaulted(alloc, "kind", forms::Word, Text::of(alloc, "Gateway")?)?,
            namespace: at.defaulted(alloc, "namespace", forms::Namespace, self.own.copy(alloc)?)?,
            name: at.needed(alloc, "name", forms::Name)?,
            section_name: at.given(alloc, SECTION_NAME, forms::Name)?,
            port: at.given(alloc, "port", Port)?,
        })
    }
}
