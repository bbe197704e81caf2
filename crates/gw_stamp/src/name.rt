//! The names of conditions, and their order.
ghost use Rattle.std.specs.Prelude.{◌≡◌, IfOk};
ghost use Rattle.gw_stamp.specs.Names.{kind_place, name_order, object_order, owner_place, part_order, part_place};

use gw_text::{CondKind, Key, List, NoMemory, Text};
use std::alloc::Global;
use std::cmp::Ordering;
use std::marker::Model;

/// The kind of the object in whose status a condition stands.
#[derive(Clone, Copy, Debug, PartialEq, Eq)]
pub enum Owner {
    Class,
    Gateway,
    Route,
}

impl Owner {
    fn place(self) -> u8
        ensures { result ≡ owner_place self }
    {
        match self {
            Owner::Class => 0,
            Owner::Gateway => 1,
            Owner::Route => 2,
        }
    }
}

/// The part of a status to which a condition belongs.
#[derive(Drop)]
pub enum Part {
    /// The object itself.
    Whole,
    /// The listener of this name.
    Listener(Text),
    /// The parentRef to the Gateway of this namespace and name. The number counts those before it that are equal to it.
    Parent {
        namespace: Text,
        name: Text,
        section: Option<Text>,
        port: Option<u16>,
        number: u32,
    },
}

impl Part {
    fn place(&self) -> u8
        ensures { result ≡ part_place self.now }
    {
        match self {
            Part::Whole => 0,
            Part::Listener(_) => 1,
            Part::Parent { .. } => 2,
        }
    }

    fn compare(&self, other: &Part) -> Ordering
        ensures { result ≡ part_order self.now other.now }
    {
        match (self, other) {
            (Part::Listener(own), Part::Listener(others)) => own.cmp(others),
            (
                Part::Parent {
                    namespace,
                    name,
                    section,
                    port,
                    number,
                },
                Part::Parent {
                    namespace: other_namespace,
                    name: other_name,
                    section: other_section,
                    port: other_port,
                    number: other_number,
                },
            ) => namespace
                .cmp(other_namespace)
                .then(name.cmp(other_name))
                .then(section.cmp(other_section))
                .then(port.cmp(other_port))
                .then(number.cmp(other_number)),
            _ => self.place().cmp(&other.place()),
        }
    }

    /// The same part once more.
    pub fn copy(&self, alloc: Global) -> Result<Self, NoMemory>
        ensures { IfOk result (λ part. part ≡ self.now) }
    {
        match self {
            Part::Whole => Ok(Part::Whole),
            Part::Listener(name) => Ok(Part::Listener(name.copy(alloc)?)),
            Part::Parent {
                namespace,
                name,
                section,
                port,
                number,
            } => Ok(Part::Parent {
                namespace: namespace.copy(alloc)?,
                name: name.copy(alloc)?,
                section: copy_given(alloc, section)?,
                port: *port,
                number: *number,
            }),
        }
    }
}

// The same text once more, where there is one.
fn copy_given(alloc: Global, text: &Option<Text>) -> Result<Option<Text>, NoMemory>
    ensures { IfOk result (λ copy. copy ≡ text.now) }
{
    match text {
        Some(text) => Ok(Some(text.copy(alloc)?)),
        None => Ok(None),
    }
}

// The place of a type among the types, in the byte order of their texts.
fn place_of(kind: CondKind) -> u8
    ensures { result ≡ kind_place kind }
{
    match kind {
        CondKind::Accepted => 0,
        CondKind::Conflicted => 1,
        CondKind::Programmed => 2,
        CondKind::ResolvedRefs => 3,
    }
}

/// The name of a condition. Source: Condition of the Kubernetes API, of which a status has one of each type in each of its lists.
pub struct CondName {
    pub owner: Owner,
    pub key: Key,
    pub kind: CondKind,
    pub part: Part,
}

impl Model for CondName {
    ghost use Rattle.gw_stamp.specs.Names.{CondName as Plain};

    ghost Value = { Plain };

    ghost view = { λ n. record { owner = n.owner; key = n.key; kind = n.kind; part = n.part } };
}

// Written out, so that crates above don't prove anew how its parts are dropped.
impl Drop for CondName {
    fn drop(self) {
        let CondName {
            owner: _,
            key: _,
            kind: _,
            part: _,
        } = self;
    }
}

/// Names of conditions.
pub type CondNames = List<CondName>;

/// Names of conditions, each with whether its status is True.
pub type Stated = List<(CondName, bool)>;

impl CondName {
    // Objects first.
    fn compare_objects(&self, other: &CondName) -> Ordering
        ensures { result ≡ object_order self.now other.now }
    {
        self.owner
            .place()
            .cmp(&other.owner.place())
            .then(self.key.namespace.cmp(&other.key.namespace))
            .then(self.key.name.cmp(&other.key.name))
    }

    /// Which of two names stands before the other.
    #[tactic(auto, unfolding(crate::specs::Names::name_order))]
    pub fn compare(&self, other: &CondName) -> Ordering
        ensures { result ≡ name_order self.now other.now }
    {
        match self.compare_objects(other) {
            Ordering::Equal => self
                .part
                .compare(&other.part)
                .then(place_of(self.kind).cmp(&place_of(other.kind))),
            unequal => unequal,
        }
    }

    /// The same name once more.
    pub fn copy(&self, alloc: Global) -> Result<Self, NoMemory>
        ensures { IfOk result (λ name. name ≡ self.now) }
    {
        Ok(CondName {
            owner: self.owner,
            key: self.key.copy(alloc)?,
            kind: self.kind,
            part: self.part.copy(alloc)?,
        })
    }
}
