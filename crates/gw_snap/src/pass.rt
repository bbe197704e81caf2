ghost use Rattle.std.specs.Prelude.{◌≡◌, ◌⊎◌, ◌<◌, ◌↔◌, [], true, IfOk, IfErr, OnOk, OnErr, MatchBool, IsTrue, length};
ghost use Rattle.std.specs.Arc.{arc_value};
ghost use Rattle.left_right.specs.Sides.{view};
ghost use Rattle.gw_snap.specs.Counts.{CountsPlace, Rises};
ghost use Rattle.gw_snap.specs.Lists.{BeginsWith, fresh};
ghost use Rattle.gw_snap.specs.Readers.{known};

use crate::fault::OpenFault;
use crate::known::Known;
use crate::note::Note;
use crate::publisher::Publisher;
use crate::rule::{OneOpening, Reads};
use crate::shown::Shown;
use crate::told::Told;
use core::mem::replace_with;
use crossbeam_utils::rule::Protocol;
use gw_lists::Reached;
use left_right::reader::Reader;
use std::marker::Model;
use std::sync::{Arc, Wait};

/// A reader of what is shown.
pub type ShownReader<T> = Reader<
    Shown<T, <T as Told>::Change>,
    Known<<T as Told>::Fixed>,
    OneOpening,
>;

/// What was read: a value, and how many changes it stands for.
#[derive(Drop)]
pub struct View<T: Told> {
    pub value: Arc<T>,
    pub front: u64,
}

/// A place from which the published value is read.
pub type Pass<T> = RuledPass<T, OneOpening>;

/// Such a place, under any rule.
#[derive(Drop)]
pub struct RuledPass<T: Told, P: Protocol<Shown<T, T::Change>, Known<T::Fixed>>> {
    reader: Reader<Shown<T, T::Change>, Known<T::Fixed>, P>,
    seen: Reached<T::Change>,
    refused: u64,
    ahead: u64,
}

impl<T: Told, P: Protocol<Shown<T, T::Change>, Known<T::Fixed>>> Model for RuledPass<T, P> {
    ghost use Rattle.std.specs.Prelude.{◌≡◌};
    ghost use Rattle.left_right.specs.Sides.{view as known_by};
    ghost use Rattle.gw_snap.specs.Lists.{Seen};
    ghost use Rattle.gw_snap.specs.Readers.{known};

    ghost Value = { Seen T.Change T.Fixed };

    ghost view = { λ pass. record {
      seen = pass.seen.list;
      fixed = (known_by pass.reader.place).fixed;
      book = pass.seen.book;
      refused = pass.refused;
      ahead = pass.ahead;
    } };

    ghost invariant = { λ pass. known_by pass.reader.place ≡ known pass.seen.book (known_by pass.reader.place).fixed };
}

impl<T: Told> RuledPass<T, OneOpening> {
    /// A place that knows its opening, and has seen nothing of the list.
    pub(crate) fn new(reader: ShownReader<T>, seen: Reached<T::Change>) -> Self
        requires knows { view reader.place ≡ known seen.book (view reader.place).fixed }
        requires nothing { seen.list ≡ [] }
        ensures { result ≡ fresh (view reader.place).fixed seen.book }
    {
        RuledPass {
            reader,
            seen,
            refused: 0,
            ahead: 0,
        }
    }

    /// Reads the value. What the pass has seen is then the list for which the value stands. It takes no lock and waits for nobody.
    pub fn read(&mut self) -> Result<View<T>, OpenFault>
        ensures tells { IfOk result (λ v. ∥ T.tells (arc_value v.value) self.new.seen ∥₁) }
        ensures front { IfOk result (λ v. v.front ≡ length self.new.seen) }
        ensures value { IfOk result (λ v. T.fixed (arc_value v.value) ≡ self.new.fixed) }
        ensures later { BeginsWith self.old.seen self.new.seen }
        ensures err { OnErr result (self.new.seen ≡ self.old.seen) }

        // A place that was refused is counted, and nothing else is.
        ensures ok { OnOk result (self.new.refused ≡ self.old.refused) }
        ensures refused { IfErr result (λ e. CountsPlace e self.old.refused self.new.refused) }
        ensures ahead { self.new.ahead ≡ self.old.ahead }

        ensures fixed { self.new.fixed ≡ self.old.fixed }
        ensures book { self.new.book ≡ self.old.book }
    {
        match self.newest() {
            Ok(shown) => {
                // A publication is over before there is a note of it, so what is shown is never shorter than what was learnt. No
                // clause on a pass can name its publisher, so none excludes it: such a value is refused as a place is.
                if shown.list.front() < self.seen.front() {
                    self.refused = self.refused.saturating_add(1);
                    return Err(OpenFault::Place);
                }
                self.seen.go_on(&shown.list);
                Ok(View {
                    value: shown.value,
                    front: shown.list.front(),
                })
            }
            Err(OpenFault::Place) => {
                self.refused = self.refused.saturating_add(1);
                Err(OpenFault::Place)
            }
            Err(OpenFault::NoMemory) => Err(OpenFault::NoMemory),
        }
    }

    // What is shown, through the reader.
    fn newest(&mut self) -> Result<Shown<T, T::Change>, OpenFault>
        ensures same { self.new ≡ self.old }
        ensures book { IfOk result (λ s. s.list.book ≡ self.old.book) }
        ensures fixed { IfOk result (λ s. T.fixed (arc_value s.value) ≡ self.old.fixed) }
        ensures tells { IfOk result (λ s. ∥ T.tells (arc_value s.value) s.list.list ∥₁) }
    {
        replace_with(
            &mut self.reader,
            (),
            |reader: Reader<Shown<T, T::Change>, Known<T::Fixed>, OneOpening>, _nothing: ()| -> (
                Reader<Shown<T, T::Change>, Known<T::Fixed>, OneOpening>,
                Result<Shown<T, T::Change>, OpenFault>,
            )
                ensures { (view result.0.place ≡ view reader.place)
                    × ((view reader.place).told ≡ true → IfOk result.1 (λ s. view reader.place ≡ known s.list.book (T.fixed (arc_value s.value))))
                    × IfOk result.1 (λ s. ∥ T.tells (arc_value s.value) s.list.list ∥₁) }
            { read_shown(reader) },
        )
    }

    /// Learns of a publication: the pass has then seen the longer of the two lists. It takes no memory.
    pub fn learn(&mut self, note: &mut Note<T>)
        requires { note.old.book ≡ self.old.book }
        ensures mine { BeginsWith self.old.seen self.new.seen }
        ensures theirs { BeginsWith note.old.list self.new.seen }
        ensures one { (self.new.seen ≡ self.old.seen) ⊎ (self.new.seen ≡ note.old.list) }

        ensures fixed { self.new.fixed ≡ self.old.fixed }
        ensures book { self.new.book ≡ self.old.book }
        ensures refused { self.new.refused ≡ self.old.refused }
        ensures ahead { self.new.ahead ≡ self.old.ahead }
        ensures list { note.new.list ≡ note.old.list }
        ensures of { note.new.book ≡ note.old.book }
    {
        self.seen.learn(&note.list);
    }

    /// How many changes the pass has seen.
    pub fn front(&self) -> u64
        ensures { result ≡ length self.now.seen }
    {
        self.seen.front()
    }

    /// How often a reading was refused.
    pub fn refused(&self) -> u64
        ensures { result ≡ self.now.refused }
    {
        self.refused
    }

    /// How often the pass was found ahead of its publisher.
    pub fn ahead(&self) -> u64
        ensures { result ≡ self.now.ahead }
    {
        self.ahead
    }

    /// Whether the pass has seen more than is published, which is counted. Nobody should ever find it so.
    pub fn ahead_of<R: Wait + Drop>(&mut self, publisher: &Publisher<T, R>) -> bool
        requires { publisher.now.book ≡ self.old.book }
        ensures answer { IsTrue result ↔ (length publisher.now.published < length self.old.seen) }
        ensures ahead { MatchBool result (Rises self.old.ahead self.new.ahead) (self.new.ahead ≡ self.old.ahead) }

        ensures seen { self.new.seen ≡ self.old.seen }
        ensures fixed { self.new.fixed ≡ self.old.fixed }
        ensures book { self.new.book ≡ self.old.book }
        ensures refused { self.new.refused ≡ self.old.refused }
    {
        let published = publisher.front();
        if self.seen.front() <= published {
            return false;
        }
        self.ahead = self.ahead.saturating_add(1);
        true
    }
}

/// Takes what is shown. It is of the opening that the reader knows.
fn read_shown<T: Told>(
    reader: ShownReader<T>,
) -> (ShownReader<T>, Result<Shown<T, T::Change>, OpenFault>)
    ensures knows { view result.0.place ≡ view reader.place }
    ensures of { (view reader.place).told ≡ true → IfOk result.1 (λ s. view reader.place ≡ known s.list.book (T.fixed (arc_value s.value))) }
    ensures tells { IfOk result.1 (λ s. ∥ T.tells (arc_value s.value) s.list.list ∥₁) }
{
    match reader.enter_as::<Reads>() {
        Ok(reading) => {
            let shown = reading.get().again();
            let reader = reading.leave();
            match shown {
                Ok(shown) => (reader, Ok(shown)),
                Err(_) => (reader, Err(OpenFault::NoMemory)),
            }
        }
        Err(reader) => (reader, Err(OpenFault::Place)),
    }
}
