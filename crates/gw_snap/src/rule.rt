ghost use Rattle.std.specs.Prelude.{◌≡◌};
ghost use Rattle.std.specs.Arc.{arc_value};
ghost use Rattle.gw_snap.specs.Readers.{AllKnow, Knows, known, unknown};

use crate::known::Known;
use crate::shown::Shown;
use crate::told::Told;
use atomic_table::{Join, Split};
use crossbeam_utils::rule::{Outcome, Protocol};
use gw_lists::Reached;
use left_right::Absorb;
use std::alloc::AllocError;
use std::marker::PhantomData;

// What is shown is replaced by what comes next.
impl<T: Drop, C> Absorb<Shown<T, C>> for Shown<T, C> {
    type State = (T, Reached<C>);

    ghost state = { λ shown. (arc_value shown.value, shown.list) };

    ghost applied = { λ state next. (arc_value next.value, next.list) };

    fn absorb_first(&mut self, next: &Shown<T, C>, _other: &Shown<T, C>) -> Result<(), AllocError> {
        *self = next.again()?;
        Ok(())
    }
}

/// The rule between a publisher and its readers: the value that is shown stands for its list, and is of the opening that each reader
/// knows.
pub struct OneOpening;

impl<T: Told> Protocol<Shown<T, T::Change>, Known<T::Fixed>> for OneOpening {
    ghost holds = { λ shown readers. ∥ T.tells (arc_value shown.value) shown.list.list ∥₁ × AllKnow shown.list.book (T.fixed (arc_value shown.value)) readers };

    ghost first = { unknown T.blank };
}

/// A reading: the value stands for its list, and is of the opening that the reader knows.
pub struct Reads;

impl<T: Told> Outcome<Shown<T, T::Change>, Known<T::Fixed>> for Reads {
    ghost then = { λ knew before shown knows. (knows ≡ knew) × Knows shown.list.book (T.fixed (arc_value shown.value)) knew × ∥ T.tells (arc_value shown.value) shown.list.list ∥₁ };
}

/// A publication: the writer knows the opening from then on.
pub struct Publishes;

impl<T: Told> Outcome<Shown<T, T::Change>, Known<T::Fixed>> for Publishes {
    ghost then = { λ knew before shown knows. knows ≡ known shown.list.book (T.fixed (arc_value shown.value)) };
}

/// The writer tells a reader what it knows.
pub struct Tells<T: Told> {
    of: PhantomData<T>,
}

impl<T: Told> Split<Known<T::Fixed>> for Tells<T> {
    ghost left = { λ knows. knows };

    ghost right = { λ knows. knows };
}

impl<T: Told> Join<Known<T::Fixed>> for Tells<T> {
    ghost both = { λ knew told. told };

    ghost spent = { unknown T.blank };
}
