//! The labels of the namespace in which the Route at hand stands.
ghost use Rattle.std.specs.Prelude.{◌≡◌, None, false, bytes_eq, IfOk, OnOk};
ghost use Rattle.std.specs.Option.{option_map_or};
ghost use Rattle.gw_text.specs.model.World.{namespace_labels};
ghost use Rattle.gw_eval.specs.Homes.{labels_in, IsHome};

use gw_labels::Labels;
use gw_objects::{Namespace, labels_by_name};
use gw_store::World;
use gw_text::{NoMemory, Stored, Text};
use std::alloc::Global;
use std::marker::Model;

/// The labels of a namespace: those of its object, or those that its name gives.
#[derive(Drop)]
enum FoundLabels<'w> {
    Held(&'w Stored<Namespace>),
    Named(Labels),
}

/// The namespace of the Route at hand, with its labels. Routes stand in key order, so that most stand in the namespace of the one
/// before, and its labels needn't be found again.
#[derive(Drop)]
pub struct Home<'w> {
    namespace: Option<&'w Text>,
    found: FoundLabels<'w>,
}

impl<'w> Model for Home<'w> {
    ghost use Rattle.std.specs.Prelude.{option_copied};
    ghost use Rattle.gw_eval.specs.Homes.{Home as Plain, labels_in};

    ghost Value = { Plain };

    ghost view = { λ h. record { namespace = option_copied h.namespace; labels = labels_in h.found } };
}

fn found_labels<'w>(
    alloc: Global,
    world: &'w World,
    namespace: &Text,
) -> Result<FoundLabels<'w>, NoMemory>
    ensures { IfOk result (λ found. labels_in found ≡ namespace_labels world.now.world namespace.now) }
{
    match world.namespace_named(alloc, namespace)? {
        Some(found) => Ok(FoundLabels::Held(found)),
        None => Ok(FoundLabels::Named(labels_by_name(alloc, namespace)?)),
    }
}

impl<'w> Home<'w> {
    /// No namespace yet.
    pub fn none(alloc: Global) -> Self
        ensures { result.namespace ≡ None }
    {
        Home {
            namespace: None,
            found: FoundLabels::Named(Labels::new(alloc)),
        }
    }

    /// Goes to the namespace of this name.
    pub fn enter(
        &mut self,
        alloc: Global,
        world: &'w World,
        namespace: &'w Text,
    ) -> Result<(), NoMemory>
        requires { IsHome world.now.world self.old }
        ensures home { OnOk result (IsHome world.now.world self.new) }
        ensures labels { OnOk result (self.new.labels ≡ namespace_labels world.now.world namespace.now) }
    {
        if self.is_in(namespace) {
            return Ok(());
        }
        self.found = found_labels(alloc, world, namespace)?;
        self.namespace = Some(namespace);
        Ok(())
    }

    // Whether it is at the namespace of this name.
    fn is_in(&self, namespace: &Text) -> bool
        ensures { result ≡ option_map_or (bytes_eq namespace.now) self.now.namespace false }
    {
        match self.namespace {
            Some(own) => *own == *namespace,
            None => false,
        }
    }

    /// The labels of the namespace.
    pub fn labels(&self) -> &Labels
        ensures { result.now ≡ self.now.labels }
    {
        match &self.found {
            FoundLabels::Held(found) => &found.labels,
            FoundLabels::Named(labels) => labels,
        }
    }
}
