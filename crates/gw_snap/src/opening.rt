ghost use Rattle.std.specs.Prelude.{◌≡◌, ◌<◌, ◌^◌, [], IfOk, IfErr, OnOk};
ghost use Rattle.std.specs.Arc.{arc_value};
ghost use Rattle.left_right.specs.Sides.{view};
ghost use Rattle.gw_snap.specs.Counts.{CountsPlace};
ghost use Rattle.gw_snap.specs.Lists.{copies, fresh};
ghost use Rattle.gw_snap.specs.Readers.{known};

use crate::counts::SnapFaults;
use crate::fault::OpenFault;
use crate::pass::{Pass, RuledPass, ShownReader};
use crate::passes::{Passes, RuledPasses};
use crate::publisher::{Publisher, RuledPublisher};
use crate::rule::{OneOpening, Tells};
use crate::shown::Shown;
use crate::told::Told;
use crate::writer::{EndedWriter, ShownWriter, show};
use gw_lists::{ListWriter, Reached};
use left_right::writer::Writer;
use std::alloc::Global;
use std::sync::{Arc, Wait};

/// A publisher and as many passes as there are places. The value stands for no change, and all lists are empty. The handle stays with the
/// publisher, whose end needs it.
pub fn snapshots<T: Told, R: Wait + Drop>(
    alloc: Global,
    rt: R,
    faults: &mut SnapFaults,
    first: Arc<T>,
    places: usize,
) -> Result<(Publisher<T, R>, Passes<T>), OpenFault>
    requires some { 0 < places }
    requires few { places < 2 ^ 32 }
    requires tells { ∥ T.tells (arc_value first) [] ∥₁ }
    ensures pending { IfOk result (λ opened. opened.0.pending ≡ []) }
    ensures published { IfOk result (λ opened. opened.0.published ≡ []) }
    ensures fixed { IfOk result (λ opened. opened.0.fixed ≡ T.fixed (arc_value first)) }
    ensures passes { IfOk result (λ opened. opened.1 ≡ copies places (fresh (T.fixed (arc_value first)) opened.0.book)) }

    // A place that was refused is counted, and nothing else is.
    ensures ok { OnOk result (faults.new.places ≡ faults.old.places) }
    ensures places { IfErr result (λ e. CountsPlace e faults.old.places faults.new.places) }
    ensures ahead { faults.new.ahead ≡ faults.old.ahead }
{
    match open(alloc, rt, first, places) {
        Ok(opened) => Ok(opened),
        Err(OpenFault::NoMemory) => Err(OpenFault::NoMemory),
        Err(OpenFault::Place) => {
            faults.count_place();
            Err(OpenFault::Place)
        }
    }
}

// The same, before anything is counted.
fn open<T: Told, R: Wait + Drop>(
    alloc: Global,
    rt: R,
    first: Arc<T>,
    places: usize,
) -> Result<(Publisher<T, R>, Passes<T>), OpenFault>
    requires some { 0 < places }
    requires few { places < 2 ^ 32 }
    requires tells { ∥ T.tells (arc_value first) [] ∥₁ }
    ensures pending { IfOk result (λ opened. opened.0.pending ≡ []) }
    ensures published { IfOk result (λ opened. opened.0.published ≡ []) }
    ensures fixed { IfOk result (λ opened. opened.0.fixed ≡ T.fixed (arc_value first)) }
    ensures passes { IfOk result (λ opened. opened.1 ≡ copies places (fresh (T.fixed (arc_value first)) opened.0.book)) }
{
    let mut publisher = open_publisher(alloc, rt, first, places)?;
    let passes = publisher.open_passes(alloc, places)?;
    Ok((publisher, passes))
}

// A publisher that knows its opening. Only a publication lets it know, so the first value is published once more.
fn open_publisher<T: Told, R: Wait + Drop>(
    alloc: Global,
    rt: R,
    first: Arc<T>,
    places: usize,
) -> Result<Publisher<T, R>, OpenFault>
    requires some { 0 < places }
    requires few { places < 2 ^ 32 }
    requires tells { ∥ T.tells (arc_value first) [] ∥₁ }
    ensures pending { IfOk result (λ p. p.pending ≡ []) }
    ensures published { IfOk result (λ p. p.published ≡ []) }
    ensures fixed { IfOk result (λ p. p.fixed ≡ T.fixed (arc_value first)) }
{
    let list: ListWriter<T::Change> = ListWriter::new();
    let newest = Shown {
        value: first,
        list: list.reached(),
    };
    let left = newest.again()?;
    let right = newest.again()?;
    let again = newest.again()?;
    let writer: ShownWriter<T> = Writer::new(alloc, left, right, places)?;
    let (writer, done) = show(&rt, writer, again);
    let shown = EndedWriter { writer, rt };
    match done {
        Ok(()) => {}
        Err(_) => return Err(OpenFault::NoMemory),
    }
    let published = list.reached();
    Ok(RuledPublisher {
        shown,
        list,
        newest,
        published,
    })
}

impl<T: Told, R: Wait + Drop> RuledPublisher<T, Shown<T, T::Change>, OneOpening, R> {
    // As many passes as places, of which nobody has seen anything.
    fn open_passes(&mut self, alloc: Global, places: usize) -> Result<Passes<T>, OpenFault>
        requires { self.old.pending ≡ [] }
        ensures same { self.new ≡ self.old }
        ensures passes { IfOk result (λ passes. passes ≡ copies places (fresh self.old.fixed self.old.book)) }
    {
        let seen = self.list.reached();
        let left = fresh_passes(alloc, &mut self.shown.writer, &seen, places)?;
        Ok(RuledPasses::new(left))
    }
}

// As many passes as places, through a writer that knows the opening.
fn fresh_passes<T: Told>(
    alloc: Global,
    writer: &mut ShownWriter<T>,
    seen: &Reached<T::Change>,
    places: usize,
) -> Result<Vec<Pass<T>>, OpenFault>
    requires knows { view writer.old.desk.place ≡ known seen.now.book (view writer.old.desk.place).fixed }
    requires nothing { seen.now.list ≡ [] }
    ensures knows { view writer.new.desk.place ≡ view writer.old.desk.place }
    ensures shown { writer.new.desk.shown ≡ writer.old.desk.shown }
    ensures passes { IfOk result (λ passes. passes.items ≡ copies places (fresh (view writer.old.desk.place).fixed seen.now.book)) }
{
    let mut passes = Vec::new(alloc);
    'places: for _place in 0..places {
        let reader = open_reader(writer)?;
        passes.push(RuledPass::new(reader, seen.again()))?;
    }
    Ok(passes)
}

// A reader that knows of the opening what the writer does.
fn open_reader<T: Told>(writer: &mut ShownWriter<T>) -> Result<ShownReader<T>, OpenFault>
    ensures knows { view writer.new.desk.place ≡ view writer.old.desk.place }
    ensures shown { writer.new.desk.shown ≡ writer.old.desk.shown }
    ensures reader { IfOk result (λ reader. view reader.place ≡ view writer.old.desk.place) }
{
    match writer.factory().reader() {
        Ok(mut reader) => {
            reader.learn::<Tells<T>>(writer.tell::<Tells<T>>());
            Ok(reader)
        }
        Err(_) => Err(OpenFault::Place),
    }
}
