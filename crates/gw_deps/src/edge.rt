//! Edges from what is named to the object that names it.
ghost use Rattle.std.specs.Prelude.{◌≡◌, ◌||◌, IfOk, OnOk};
ghost use Rattle.gw_deps.specs.Edges.{edge_order, has_edge, name_order, of_subject, same_edge};
ghost use Rattle.gw_deps.specs.Orders as orders;

use crate::key::SharedKey;
use crate::sorted::{Ordered, Sorted};
use gw_text::{NoMemory, Text};
use std::alloc::Global;
use std::cmp::Ordering;
use std::marker::Model;

/// The namespace and name by which something is named, and the key of the object that names it.
#[derive(Drop)]
struct Ends {
    namespace: Text,
    name: Text,
    dependant: SharedKey,
}

/// A handle on an edge, so that moving one in a list costs little.
pub struct Edge {
    ends: Box<Ends>,
}

impl Model for Edge {
    ghost use Rattle.gw_deps.specs.Edges.{Edge as Plain};

    ghost Value = { Plain };

    ghost view = { λ e. record {
      subject = record { namespace = e.ends.value.namespace; name = e.ends.value.name };
      dependant = e.ends.value.dependant;
    } };
}

// Written out, so that crates above don't prove anew how its parts are dropped.
impl Drop for Edge {
    fn drop(self) {
        let Edge { ends: _ } = self;
    }
}

impl Edge {
    /// The edge from what has this namespace and name to the object of this key.
    pub fn new(
        alloc: Global,
        namespace: &[u8],
        name: &[u8],
        dependant: &SharedKey,
    ) -> Result<Self, NoMemory>
        ensures { IfOk result (λ e. e ≡ record { subject = record { namespace = namespace.now; name = name.now }; dependant = dependant.now }) }
    {
        let ends = Ends {
            namespace: Text::from_bytes(alloc, namespace)?,
            name: Text::from_bytes(alloc, name)?,
            dependant: dependant.share()?,
        };
        Ok(Edge {
            ends: Box::new(alloc, ends)?,
        })
    }

    /// The key of the object that names it.
    pub fn dependant(&self) -> &SharedKey
        ensures { result.now ≡ self.now.dependant }
    {
        &self.ends.dependant
    }

    // How what is named stands to this namespace and name.
    fn compare_subject(&self, namespace: &[u8], name: &[u8]) -> Ordering
        ensures { result ≡ name_order self.now.subject (record { namespace = namespace.now; name = name.now }) }
    {
        self.ends
            .namespace
            .bytes()
            .cmp(namespace)
            .then(self.ends.name.bytes().cmp(name))
    }
}

impl Ordered for Edge {
    ghost order = { edge_order };

    ghost same = { same_edge };

    ghost total = { orders.edge_total };

    ghost ties = { orders.edge_ties };

    fn compare(&self, other: &Self) -> Ordering {
        let subject = self.compare_subject(other.ends.namespace.bytes(), other.ends.name.bytes());
        subject.then(self.ends.dependant.compare(&other.ends.dependant))
    }
}

/// The edges from what has this namespace and name.
pub fn edges_from<'e>(edges: &'e Sorted<Edge>, namespace: &[u8], name: &[u8]) -> &'e [Edge]
    ensures { result.now ≡ of_subject (record { namespace = namespace.now; name = name.now }) edges.now.list }
{
    let edges = edges.as_slice();
    let first = edges.partition_point(|edge| edge.compare_subject(namespace, name).is_lt());
    let rest = &edges[first..];
    let count = rest.partition_point(|edge| edge.compare_subject(namespace, name).is_eq());
    &rest[..count]
}

/// Puts an edge to the others.
pub fn add_edge(
    alloc: Global,
    edges: &mut Sorted<Edge>,
    namespace: &[u8],
    name: &[u8],
    dependant: &SharedKey,
) -> Result<(), NoMemory>
    ensures { OnOk result ((x : _) → has_edge x edges.new.list
        ≡ (same_edge (record { subject = record { namespace = namespace.now; name = name.now }; dependant = dependant.now }) x || has_edge x edges.old.list)) }
{
    edges.add(Edge::new(alloc, namespace, name, dependant)?)
}
