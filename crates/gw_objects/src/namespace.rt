ghost use Rattle.std.specs.Prelude.{◌≡◌, [], IfOk, OnOk};
ghost use Rattle.gw_json.specs.Words.{Gives};
ghost use Rattle.gw_json.specs.Fields.{node_of};
ghost use Rattle.gw_text.specs.model.Namespaces.{with_own_name};
ghost use Rattle.gw_objects.specs.Namespaces as namespaces;

use crate::labels::read_labels;
use gw_json::{Cursor, Refusal};
use gw_labels::Labels;
use gw_text::{Meta, Text};
use std::alloc::{AllocError, Global};
use std::marker::Model;

/// A Namespace.
pub struct Namespace {
    pub meta: Meta,
    /// `kubernetes.io/metadata.name` is the namespace's own name.
    pub labels: Labels,
}

impl Model for Namespace {
    ghost use Rattle.gw_text.specs.model.Namespaces.{Namespace as Plain};

    ghost Value = { Plain };

    ghost view = { λ n. record { meta = n.meta; labels = n.labels } };
}

// Written out, so that crates above don't prove anew how its parts are dropped.
impl Drop for Namespace {
    fn drop(self) {
        let Namespace { meta: _, labels: _ } = self;
    }
}

fn put_own_name(alloc: Global, name: &Text, labels: &mut Labels) -> Result<(), AllocError>
    ensures { OnOk result (labels.new ≡ with_own_name name.now labels.old) }
{
    let name = name.printed(alloc)?;
    labels.put("kubernetes.io/metadata.name", name.as_str())
}

/// The labels of the namespace of this name that has no object.
pub fn labels_by_name(alloc: Global, name: &Text) -> Result<Labels, AllocError>
    ensures { IfOk result (λ labels. labels ≡ with_own_name name.now []) }
{
    let mut labels = Labels::new(alloc);
    put_own_name(alloc, name, &mut labels)?;
    Ok(labels)
}

/// The Namespace of this metadata. `at` is the whole object.
#[tactic(auto, unfolding(crate::specs::Namespaces::namespace_of))]
pub fn read_namespace(alloc: Global, meta: Meta, at: &Cursor<'_>) -> Result<Namespace, Refusal>
    ensures { Gives (λ x. x) result (namespaces.namespace_of meta (node_of at.now)) }
{
    let mut labels = read_labels(alloc, at)?;
    put_own_name(alloc, &meta.key.name, &mut labels)?;
    Ok(Namespace { meta, labels })
}
