ghost use Rattle.gw_json.specs.Words.{Gives};
ghost use Rattle.gw_json.specs.Fields.{node_of};
ghost use Rattle.gw_objects.specs.Grants as grants;

use gw_forms as forms;
use gw_json::{Cursor, Form, Refusal};
use gw_text::{Meta, Name, NamespaceName, Text};
use std::alloc::Global;
use std::marker::Model;

/// The objects that may refer: those of this kind in this namespace.
#[derive(Drop)]
pub struct GrantFrom {
    pub group: Text,
    pub kind: Text,
    pub namespace: NamespaceName,
}

impl Model for GrantFrom {
    ghost use Rattle.gw_text.specs.model.Grants.{GrantFrom as Plain};

    ghost Value = { Plain };

    ghost view = { λ f. record { group = f.group; kind = f.kind; namespace = f.namespace } };
}

/// An item of spec.from.
#[derive(Clone, Copy)]
pub struct GrantFromForm;

impl Form for GrantFromForm {
    type Value = GrantFrom;

    ghost seen = { λ value. value };

    ghost of = { λ _. grants.grant_from_of };

    #[tactic(auto, unfolding(crate::specs::Grants::grant_from_of))]
    fn read(&self, alloc: Global, at: &Cursor<'_>) -> Result<GrantFrom, Refusal> {
        let group = at.needed(alloc, "group", forms::Word)?;
        let kind = at.needed(alloc, "kind", forms::Word)?;
        let namespace = at.needed(alloc, "namespace", forms::Namespace)?;
        Ok(GrantFrom {
            group,
            kind,
            namespace,
        })
    }
}

/// The objects that may be referred to, in the grant's own namespace; without a name all of the kind.
#[derive(Drop)]
pub struct GrantTo {
    pub group: Text,
    pub kind: Text,
    pub name: Option<Name>,
}

impl Model for GrantTo {
    ghost use Rattle.gw_text.specs.model.Grants.{GrantTo as Plain};

    ghost Value = { Plain };

    ghost view = { λ t. record { group = t.group; kind = t.kind; name = t.name } };
}

/// An item of spec.to.
#[derive(Clone, Copy)]
pub struct GrantToForm;

impl Form for GrantToForm {
    type Value = GrantTo;

    ghost seen = { λ value. value };

    ghost of = { λ _. grants.grant_to_of };

    #[tactic(auto, unfolding(crate::specs::Grants::grant_to_of))]
    fn read(&self, alloc: Global, at: &Cursor<'_>) -> Result<GrantTo, Refusal> {
        let group = at.needed(alloc, "group", forms::Word)?;
        let kind = at.needed(alloc, "kind", forms::Word)?;
        let name = at.given(alloc, "name", forms::Name)?;
        Ok(GrantTo { group, kind, name })
    }
}

/// A ReferenceGrant.
pub struct ReferenceGrant {
    pub meta: Meta,
    pub from: Vec<GrantFrom>,
    pub to: Vec<GrantTo>,
}

impl Model for ReferenceGrant {
    ghost use Rattle.gw_text.specs.model.Grants.{ReferenceGrant as Plain};

    ghost Value = { Plain };

    ghost view = { λ g. record { meta = g.meta; from = g.from.items; to = g.to.items } };
}

// Written out, so that crates above don't prove anew how its parts are dropped.
impl Drop for ReferenceGrant {
    fn drop(self) {
        let ReferenceGrant {
            meta: _,
            from: _,
            to: _,
        } = self;
    }
}

/// The ReferenceGrant of this metadata. `at` is the whole object.
#[tactic(auto, unfolding(crate::specs::Grants::grant_of))]
pub fn read_grant(alloc: Global, meta: Meta, at: &Cursor<'_>) -> Result<ReferenceGrant, Refusal>
    ensures { Gives (λ x. x) result (grants.grant_of meta (node_of at.now)) }
{
    let spec = at.spec(alloc)?;
    let from = spec.needed_list(alloc, "from", 16, GrantFromForm)?;
    let to = spec.needed_list(alloc, "to", 16, GrantToForm)?;
    Ok(ReferenceGrant { meta, from, to })
}
