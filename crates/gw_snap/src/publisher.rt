ghost use Rattle.std.specs.Prelude.{◌≡◌, ◌<◌, ◌+◌, ◌^◌, ◌++◌, ◌∷◌, [], length, true, IfOk, IfErr, OnOk, OnErr, MatchResult};
ghost use Rattle.std.specs.Arc.{arc_value};
ghost use Rattle.left_right.specs.Sides.{view};
ghost use Rattle.gw_snap.specs.Lists.{BeginsWith};
ghost use Rattle.gw_snap.specs.Readers.{known};

use crate::known::Known;
use crate::note::Note;
use crate::rule::OneOpening;
use crate::shown::Shown;
use crate::told::Told;
use crate::writer::{EndedWriter, ShownWriter, show};
use core::mem::replace_with;
use crossbeam_utils::rule::Protocol;
use gw_lists::{ListWriter, Reached};
use gw_text::NoMemory;
use left_right::Absorb;
use std::marker::Model;
use std::sync::{Arc, Wait};

/// Who appends changes, each with the value after it, and publishes them. Its end waits for those who still read, and whoever reads
/// after it is refused.
pub type Publisher<T, R> = RuledPublisher<T, Shown<T, <T as Told>::Change>, OneOpening, R>;

/// Such a publisher, under any rule.
#[derive(Drop)]
pub struct RuledPublisher<
    T: Told,
    X: Absorb<Shown<T, T::Change>, State = (T, Reached<T::Change>)> + Drop,
    P: Protocol<X, Known<T::Fixed>>,
    R: Wait + Drop,
> {
    pub(crate) shown: EndedWriter<X, Shown<T, T::Change>, Known<T::Fixed>, P, R>,
    pub(crate) list: ListWriter<T::Change>,
    pub(crate) newest: Shown<T, T::Change>,
    pub(crate) published: Reached<T::Change>,
}

impl<
    T: Told,
    X: Absorb<Shown<T, T::Change>, State = (T, Reached<T::Change>)> + Drop,
    P: Protocol<X, Known<T::Fixed>>,
    R: Wait + Drop,
> Model for RuledPublisher<T, X, P, R> {
    ghost use Rattle.std.specs.Arc.{arc_value};
    ghost use Rattle.left_right.specs.Sides.{view as known_by};
    ghost use Rattle.gw_snap.specs.Lists.{Lists};
    ghost use Rattle.gw_snap.specs.Publishing.{IsInOrder};

    ghost Value = { Lists T.Change T.Fixed };

    ghost view = { λ p. record {
      pending = p.list.list;
      published = p.published.list;
      fixed = T.fixed (arc_value p.newest.value);
      book = p.list.book;
    } };

    ghost invariant = { λ p. IsInOrder (λ list. ∥ T.tells (arc_value p.newest.value) list ∥₁) (known_by p.shown.writer.desk.place)
        (T.fixed (X.state p.shown.writer.desk.shown.value).0) (T.fixed (arc_value p.newest.value))
        (X.state p.shown.writer.desk.shown.value).1 p.published p.list p.newest.list };
}

impl<T: Told, R: Wait + Drop> RuledPublisher<T, Shown<T, T::Change>, OneOpening, R> {
    /// Appends a change and the value after it, and takes no memory. Where both are handed back, all is as before.
    pub fn append(&mut self, change: T::Change, value: Arc<T>) -> Result<(), (T::Change, Arc<T>)>
        requires few { length self.old.pending + 1 < 2 ^ 64 }
        requires fixed { T.fixed (arc_value value) ≡ self.old.fixed }
        requires tells { ∥ T.tells (arc_value value) (self.old.pending ++ change ∷ []) ∥₁ }
        ensures ok { OnOk result (self.new.pending ≡ self.old.pending ++ change ∷ []) }
        ensures err { OnErr result (self.new.pending ≡ self.old.pending) }
        ensures change { IfErr result (λ back. back.0 ≡ change) }
        ensures value { IfErr result (λ back. back.1 ≡ value) }

        ensures published { self.new.published ≡ self.old.published }
        ensures begins { BeginsWith self.new.published self.new.pending }
        ensures fixed { self.new.fixed ≡ self.old.fixed }
        ensures book { self.new.book ≡ self.old.book }
    {
        // The list has this one writer, so it always adds the change. No clause of a word that is shared can say so: where it didn't,
        // that would be answered as want of memory is.
        if !self.list.add(&change) {
            return Err((change, value));
        }
        let list = self.list.reached();
        self.newest = Shown { value, list };
        Ok(())
    }

    /// Publishes all that was appended, and waits for those who still read what was published before.
    pub fn publish<W: Wait>(&mut self, rt: &W) -> Result<Note<T>, NoMemory>
        ensures ok { OnOk result (self.new.published ≡ self.old.pending) }
        ensures err { OnErr result (self.new.published ≡ self.old.published) }
        ensures note { IfOk result (λ note. note.list ≡ self.old.pending) }
        ensures of { IfOk result (λ note. note.book ≡ self.old.book) }

        ensures pending { self.new.pending ≡ self.old.pending }
        ensures begins { BeginsWith self.new.published self.new.pending }
        ensures fixed { self.new.fixed ≡ self.old.fixed }
        ensures book { self.new.book ≡ self.old.book }
    {
        let newest = self.newest.again()?;
        let done = replace_with(
            &mut self.shown.writer,
            newest,
            |writer: ShownWriter<T>, newest: Shown<T, T::Change>| -> (
                ShownWriter<T>,
                Result<(), NoMemory>,
            )
                requires { (newest.list.book ≡ writer.desk.shown.value.list.book)
                    × (T.fixed (arc_value newest.value) ≡ T.fixed (arc_value writer.desk.shown.value.value))
                    × ∥ T.tells (arc_value newest.value) newest.list.list ∥₁ }
                ensures { MatchResult result.1
                    (λ _. (result.0.desk.shown.value.list ≡ newest.list) × (T.fixed (arc_value result.0.desk.shown.value.value) ≡ T.fixed (arc_value newest.value)) × (view result.0.desk.place ≡ known newest.list.book (T.fixed (arc_value newest.value))))
                    (λ _. (result.0.desk.shown.value ≡ writer.desk.shown.value) × (view result.0.desk.place ≡ view writer.desk.place)) }
            { show(rt, writer, newest) },
        );
        match done {
            Ok(()) => {
                self.published = self.list.reached();
                Ok(Note {
                    list: self.list.reached(),
                })
            }
            Err(e) => Err(e),
        }
    }

    /// How many changes are published.
    pub fn front(&self) -> u64
        ensures published { result ≡ length self.now.published }
        ensures begins { BeginsWith self.now.published self.now.pending }
    {
        let _ = &self.list;
        self.published.front()
    }
}
