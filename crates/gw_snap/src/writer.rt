ghost use Rattle.std.specs.Prelude.{◌≡◌, MatchResult};
ghost use Rattle.std.specs.Arc.{arc_value};
ghost use Rattle.left_right.specs.Sides.{view};
ghost use Rattle.gw_snap.specs.Readers.{known};

use crate::known::Known;
use crate::rule::{OneOpening, Publishes};
use crate::shown::Shown;
use crate::told::Told;
use crossbeam_utils::rule::Protocol;
use gw_text::NoMemory;
use left_right::Absorb;
use left_right::writer::Writer;
use std::sync::Wait;

/// A writer of what is shown.
pub type ShownWriter<T> = Writer<
    Shown<T, <T as Told>::Change>,
    Shown<T, <T as Told>::Change>,
    Known<<T as Told>::Fixed>,
    OneOpening,
>;

/// A writer with the handle that its end needs: it waits for those who still read.
pub struct EndedWriter<X: Absorb<O> + Drop, O: Drop, V, P: Protocol<X, V>, R: Wait + Drop> {
    pub writer: Writer<X, O, V, P>,
    pub rt: R,
}

impl<X: Absorb<O> + Drop, O: Drop, V, P: Protocol<X, V>, R: Wait + Drop> Drop
    for EndedWriter<X, O, V, P, R> {
    fn drop(self) {
        let EndedWriter { writer, rt } = self;
        drop(writer.take(&rt));
    }
}

/// Shows the next value of the same opening, and waits for those who read the one before. Where memory is wanted, the value before stays.
pub(crate) fn show<T: Told, W: Wait>(
    rt: &W,
    mut writer: ShownWriter<T>,
    next: Shown<T, T::Change>,
) -> (ShownWriter<T>, Result<(), NoMemory>)
    requires book { next.list.book ≡ writer.desk.shown.value.list.book }
    requires fixed { T.fixed (arc_value next.value) ≡ T.fixed (arc_value writer.desk.shown.value.value) }
    requires tells { ∥ T.tells (arc_value next.value) next.list.list ∥₁ }
    ensures shown { MatchResult result.1
        (λ _. (result.0.desk.shown.value.list ≡ next.list) × (T.fixed (arc_value result.0.desk.shown.value.value) ≡ T.fixed (arc_value next.value)) × (view result.0.desk.place ≡ known next.list.book (T.fixed (arc_value next.value))))
        (λ _. (result.0.desk.shown.value ≡ writer.desk.shown.value) × (view result.0.desk.place ≡ view writer.desk.place)) }
{
    match writer.append(next) {
        Ok(()) => {}
        Err(_) => return (writer, Err(NoMemory)),
    }
    writer.publish_as::<Publishes, W>(rt)
}
