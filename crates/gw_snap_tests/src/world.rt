//! Values that count their changes, and who appends, publishes and reads them.
ghost use Rattle.std.specs.Prelude.{◌≡◌, ◌+◌, ◌<◌, ◌∷◌, [], length, IfOk, IfSome, OnOk, OnErr};

use gw_snap::{OpenFault, Pass, Passes, Publisher, SnapFaults, Told, snapshots};
use gw_text::NoMemory;
use std::alloc::Global;
use std::sync::{Arc, Wait};

/// A value that counts its changes.
#[derive(Drop)]
pub struct Count(pub u64);

impl Told for Count {
    ghost use Rattle.std.specs.Prelude.{◌≡◌, length};

    type Change = u64;

    type Fixed = u64;

    ghost tells = { λ value list. value.0 ≡ length list };

    ghost fixed = { λ _. 7 };

    ghost blank = { 0 };
}

// The next two passes.
fn two(passes: &mut Passes<Count>) -> Option<(Pass<Count>, Pass<Count>)>
    ensures { IfSome result (λ two. passes.old ≡ two.0 ∷ two.1 ∷ passes.new) }
{
    let one = passes.take()?;
    let other = passes.take()?;
    Some((one, other))
}

/// A publisher and two passes, of which nobody has seen anything.
pub fn open<R: Wait + Drop>(
    alloc: Global,
    rt: R,
) -> Result<(Publisher<Count, R>, Pass<Count>, Pass<Count>), OpenFault>
    ensures pending { IfOk result (λ r. r.0.pending ≡ []) }
    ensures fixed { IfOk result (λ r. r.0.fixed ≡ 7) }
    ensures one { IfOk result (λ r. r.1.book ≡ r.0.book) }
    ensures other { IfOk result (λ r. r.2.book ≡ r.0.book) }
{
    let first = Arc::new(alloc, Count(0))?;
    let (publisher, mut passes) = snapshots(alloc, rt, &mut SnapFaults::new(), first, 2)?;
    match two(&mut passes) {
        Some((one, other)) => Ok((publisher, one, other)),
        None => Err(OpenFault::NoMemory),
    }
}

/// Appends the next change, before which there were so many.
pub fn append<R: Wait + Drop>(
    alloc: Global,
    publisher: &mut Publisher<Count, R>,
    count: u64,
) -> Result<(), NoMemory>
    requires next { length publisher.old.pending ≡ count }
    requires few { count < 1000 }
    requires fixed { publisher.old.fixed ≡ 7 }
    ensures ok { OnOk result (length publisher.new.pending ≡ count + 1) }
    ensures err { OnErr result (publisher.new.pending ≡ publisher.old.pending) }
    ensures fixed { publisher.new.fixed ≡ publisher.old.fixed }
    ensures book { publisher.new.book ≡ publisher.old.book }
{
    let value = Arc::new(alloc, Count(count + 1))?;
    match publisher.append(count, value) {
        Ok(()) => Ok(()),
        Err(_) => Err(NoMemory),
    }
}

/// Reads by a pass: how many changes its value has, and the number that it gives.
pub fn read(pass: &mut Pass<Count>) -> Result<(u64, u64), OpenFault>
    ensures { pass.new.book ≡ pass.old.book }
{
    let view = pass.read()?;
    Ok((view.value.0, view.front))
}

/// A publisher with two passes of its opening.
#[derive(Drop)]
pub struct Opened<R: Wait + Drop> {
    pub publisher: Publisher<Count, R>,
    pub one: Pass<Count>,
    pub other: Pass<Count>,
    pub count: u64,
    ghost counted: { length publisher.pending ≡ count },
    ghost fixed: { publisher.fixed ≡ 7 },
    ghost first: { one.book ≡ publisher.book },
    ghost second: { other.book ≡ publisher.book },
}

impl<R: Wait + Drop> Opened<R> {
    /// One of which nobody has seen anything.
    pub fn new(alloc: Global, rt: R) -> Result<Self, OpenFault> {
        let (publisher, one, other) = open(alloc, rt)?;
        Ok(Opened {
            publisher,
            one,
            other,
            count: 0,
        })
    }

    /// Appends the next change.
    pub fn append(&mut self, alloc: Global) -> Result<(), NoMemory>
        ensures { self.new.publisher.book ≡ self.old.publisher.book }
    {
        if self.count >= 1000 {
            return Err(NoMemory);
        }
        append(alloc, &mut self.publisher, self.count)?;
        self.count += 1;
        Ok(())
    }
}
