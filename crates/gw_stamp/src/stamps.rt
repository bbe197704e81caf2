//! The stamps, and what a change makes of them.
ghost use Rattle.std.specs.Prelude.{◌≡◌, ◌<◌, ◌++◌, [], IfOk, OnOk, length, map};
ghost use Rattle.std.specs.List.{IsDistinct};
ghost use Rattle.gw_store.proofs.InOrder.{StandsAt};
ghost use Rattle.gw_stamp.specs.Entries.{entry_of, entry_order, stamp_at};
ghost use Rattle.gw_stamp.specs.Names.{same_name};
ghost use Rattle.gw_stamp.specs.Stamping.{stamped, time_of, with_one, with_stated, without_name, without_names};

use crate::entry::Entry;
use crate::name::{CondName, CondNames, Stated};
use crate::place::{entry_at, place_in};
use gw_shared::{Shared, SharedList};
use gw_text::{NoMemory, Second};
use std::alloc::Global;
use std::marker::Model;
use std::snapshot::Snapshot;

/// For each condition that is there, whether its status is True, and since when it has this status. Copies share what they have in common.
/// Source: lastTransitionTime of Condition of the Kubernetes API.
pub struct Stamps {
    pub(crate) list: SharedList<Entry>,
}

impl Model for Stamps {
    ghost use Rattle.std.specs.Prelude.{List};
    ghost use Rattle.gw_stamp.specs.Entries.{IsInOrder};
    ghost use Rattle.gw_stamp.specs.declared.entry.Entry.{Entry as Plain};

    ghost Value = { List Plain };

    ghost view = { λ s. s.list };

    ghost invariant = { λ s. IsInOrder s.list };
}

// Written out, so that crates above don't prove anew how its parts are dropped.
impl Drop for Stamps {
    fn drop(self) {
        let Stamps { list: _ } = self;
    }
}

/// What a change makes of the stamps on which it was prepared, with all memory that it takes.
#[derive(Drop)]
pub struct StampPatch {
    next: Stamps,
    stamps: Snapshot<Stamps>,
}

impl Model for StampPatch {
    ghost use Rattle.gw_stamp.specs.Entries.{Patch};

    ghost Value = { Patch };

    ghost view = { λ p. record { before = p.stamps.value; after = p.next } };
}

// A condition that has its status from this moment on.
fn new_entry(
    alloc: Global,
    name: &CondName,
    truth: bool,
    at: Second,
) -> Result<Shared<Entry>, NoMemory>
    ensures { IfOk result (λ e. e ≡ record { name = name.now; truth = truth; since = at }) }
{
    let name = name.copy(alloc)?;
    Shared::new(
        alloc,
        Entry {
            name,
            truth,
            since: at,
        },
    )
}

impl Stamps {
    /// No conditions.
    pub fn new(alloc: Global) -> Self
        ensures { result ≡ [] }
    {
        Stamps {
            list: SharedList::new(alloc),
        }
    }

    /// Since when the condition has its status; none where it isn't there.
    pub fn at(&self, name: &CondName) -> Option<Second>
        ensures { result ≡ time_of (stamp_at self.now) name.now }
    {
        match place_in(&self.list, name) {
            Ok(place) => Some(entry_at(&self.list, place).since),
            Err(_) => None,
        }
    }

    // A copy, which shares all that is kept.
    fn share(&self, alloc: Global) -> Result<Self, NoMemory>
        ensures { IfOk result (λ copy. copy ≡ self.now) }
    {
        Ok(Stamps {
            list: self.list.share(alloc)?,
        })
    }

    // Takes a condition out, if it is there.
    fn take_out(&mut self, alloc: Global, name: &CondName) -> Result<(), NoMemory>
        ensures { OnOk result (stamp_at self.new ≡ without_name name.now (stamp_at self.old)) }
    {
        match place_in(&self.list, name) {
            Ok(place) => {
                self.list.remove(alloc, place)?;
                Ok(())
            }
            Err(_) => Ok(()),
        }
    }

    // States a condition at a moment, which is forgotten where it has this status already.
    fn state(
        &mut self,
        alloc: Global,
        name: &CondName,
        truth: bool,
        at: Second,
    ) -> Result<(), NoMemory>
        ensures { OnOk result (stamp_at self.new ≡ with_one at name.now truth (stamp_at self.old)) }
    {
        match place_in(&self.list, name) {
            Ok(place) => self.turn(alloc, place, name, truth, at),
            Err(place) => {
                let entry = new_entry(alloc, name, truth, at)?;
                self.list.insert(alloc, place, entry)?;
                Ok(())
            }
        }
    }

    // States a condition that is there, at this place.
    fn turn(
        &mut self,
        alloc: Global,
        place: usize,
        name: &CondName,
        truth: bool,
        at: Second,
    ) -> Result<(), NoMemory>
        requires within { place < length self.old }
        requires place { StandsAt entry_order (entry_of name.now) self.old place }
        ensures { OnOk result (stamp_at self.new ≡ with_one at name.now truth (stamp_at self.old)) }
    {
        if entry_at(&self.list, place).truth == truth {
            return Ok(());
        }
        let entry = new_entry(alloc, name, truth, at)?;
        self.list.put(alloc, place, entry)?;
        Ok(())
    }

    // Takes out the conditions of these names.
    fn take_out_all(&mut self, alloc: Global, names: &[CondName]) -> Result<(), NoMemory>
        ensures { OnOk result (stamp_at self.new ≡ without_names names.now (stamp_at self.old)) }
    {
        'names: for name in names {
            self.take_out(alloc, name)?;
        }
        Ok(())
    }

    // States these conditions, in their order.
    fn state_all(
        &mut self,
        alloc: Global,
        stated: &[(CondName, bool)],
        at: Second,
    ) -> Result<(), NoMemory>
        ensures { OnOk result (stamp_at self.new ≡ with_stated at stated.now (stamp_at self.old)) }
    {
        'stated: for condition in stated {
            self.state(alloc, &condition.0, condition.1, at)?;
        }
        Ok(())
    }

    /// What becomes of these stamps, which stay, where these conditions are gone and those are there from this moment on. No name stands
    /// twice.
    pub fn prepare(
        &mut self,
        alloc: Global,
        gone: &CondNames,
        now: &Stated,
        at: Second,
    ) -> Result<StampPatch, NoMemory>
        requires { IsDistinct same_name (gone.now ++ map (λ c. c.0) now.now) }
        ensures same { self.new ≡ self.old }
        ensures before { IfOk result (λ p. p.before ≡ self.new) }
        ensures after { IfOk result (λ p. stamp_at p.after ≡ stamped gone.now now.now at (stamp_at self.old)) }
    {
        let mut next = self.share(alloc)?;
        next.take_out_all(alloc, gone.as_slice())?;
        next.state_all(alloc, now.as_slice(), at)?;
        Ok(StampPatch {
            next,
            stamps: Snapshot::of(self),
        })
    }

    /// The stamps after the change that was prepared on these. Takes no memory.
    pub fn apply(&mut self, p: StampPatch)
        requires { p.before ≡ self.old }
        ensures { self.new ≡ p.after }
    {
        let StampPatch { next, stamps: _ } = p;
        *self = next;
    }
}
