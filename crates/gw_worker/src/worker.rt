//! Who serves connections, by the list of changes that is published.
ghost use Rattle.std.specs.Prelude.{◌≡◌, ◌<◌, ◌⊎◌, [], length, IfOk, IfErr, OnOk, OnErr};
ghost use Rattle.std.specs.Borrow.{sem};
ghost use Rattle.gw_snap.specs.Counts.{CountsPlace};
ghost use Rattle.gw_snap.specs.Lists.{BeginsWith};
ghost use Rattle.gw_worker.specs.Lending.{LendsPass};
ghost use Rattle.gw_worker.specs.Stays.{PassStays};
ghost use Rattle.gw_worker.specs.Workers.{Decides, handled_by, IsAt, IsLeftBy};
ghost use Rattle.gw_worker.specs.model.Sessions.{decision_at, Place};

use gw_answers::{Books, Decision};
use gw_frames::Request;
use gw_match::Tables;
use gw_snap::{Note, OpenFault, Pass};
use std::alloc::Global;
use std::marker::Model;

/// Who serves connections, one after another or by turns: by what its pass sees, with its own picks.
pub struct Worker {
    pub(crate) pass: Pass<Tables>,
    pub(crate) books: Books,
}

impl Model for Worker {
    ghost use Rattle.gw_worker.specs.model.Workers.{Worker as Plain};

    ghost Value = { Plain };

    ghost view = { λ w. record { pass = w.pass; books = w.books } };
}

// Written out, so that crates above don't prove anew how its parts are dropped.
impl Drop for Worker {
    fn drop(self) {
        let Worker { pass: _, books: _ } = self;
    }
}

impl Worker {
    /// A worker that picked nothing yet.
    pub fn new(alloc: Global, pass: Pass<Tables>) -> Worker
        ensures pass { result.pass ≡ pass }
        ensures books { result.books ≡ record { backends = []; endpoints = [] } }
    {
        Worker {
            pass,
            books: Books::new(alloc),
        }
    }

    /// Learns of a publication. Its pass has then seen the longer of the two lists.
    pub fn learn(&mut self, note: &mut Note<Tables>)
        requires { note.old.book ≡ self.old.pass.book }
        ensures mine { BeginsWith self.old.pass.seen self.new.pass.seen }
        ensures theirs { BeginsWith note.old.list self.new.pass.seen }
        ensures one { (self.new.pass.seen ≡ self.old.pass.seen) ⊎ (self.new.pass.seen ≡ note.old.list) }

        ensures fixed { self.new.pass.fixed ≡ self.old.pass.fixed }
        ensures book { self.new.pass.book ≡ self.old.pass.book }
        ensures refused { self.new.pass.refused ≡ self.old.pass.refused }
        ensures ahead { self.new.pass.ahead ≡ self.old.pass.ahead }
        ensures books { self.new.books ≡ self.old.books }
        ensures list { note.new.list ≡ note.old.list }
        ensures of { note.new.book ≡ note.old.book }
    {
        self.pass.learn(note);
    }

    /// Its own pass.
    pub fn pass(&mut self) -> &mut Pass<Tables>
        ensures* writes_back { sem 𝓛 (LendsPass self.entry result) }
        ensures value { result.now ≡ self.old.pass }
    {
        &mut self.pass
    }

    /// What is done about a request at the door of this number, by one view, and by how many changes.
    pub(crate) fn decision(
        &mut self,
        alloc: Global,
        door: usize,
        request: &Request,
    ) -> Result<(u64, Decision), OpenFault>
        requires { door < length self.old.pass.fixed.0 }
        ensures front { IfOk result (λ d. d.0 ≡ length self.new.pass.seen) }
        ensures decision { IfOk result (λ d. (p : Place) → IsAt self.old p → p.door ≡ door → d.1 ≡ decision_at p request.now (handled_by self.old self.new)) }
        ensures decides { OnOk result ((p : Place) → IsAt self.old p → p.door ≡ door → Decides p self.old self.new request.now (handled_by self.old self.new)) }
        ensures err { OnErr result ((p : Place) → IsAt self.old p → p.door ≡ door → IsLeftBy p self.old self.new request.now) }
        ensures pass { PassStays self.old self.new }
        ensures ok { OnOk result (self.new.pass.refused ≡ self.old.pass.refused) }
        ensures refused { IfErr result (λ e. CountsPlace e self.old.pass.refused self.new.pass.refused) }
    {
        let view = self.pass.read()?;
        let decision = Decision::of(alloc, view.value.table(door), request, &mut self.books)?;
        Ok((view.front, decision))
    }
}
