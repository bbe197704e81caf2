//! Passes in threads.
ghost use Rattle.std.specs.Prelude.{◌≡◌, ◌<◌, ◌+◌, length};

use crate::world::{Count, append, open};
use gw_snap::{Pass, Publisher};
use std::alloc::Global;
use std::sync::Wait;
use std::test::*;
use std::thread;

// Reads so often. Whether each reading was taken, with as many changes as its front says, and no front fell.
fn read_often(mut pass: Pass<Count>) -> (Pass<Count>, bool) {
    let mut last = 0;
    for _ in 0..2000 {
        match pass.read() {
            Ok(view) => {
                if view.front < last || view.value.0 != view.front {
                    return (pass, false);
                }
                last = view.front;
            }
            Err(_) => return (pass, false),
        }
        thread::yield_now();
    }
    (pass, true)
}

// Appends and publishes so often. Whether each was taken.
fn publish_often<R: Wait + Drop, W: Wait>(
    rt: &W,
    alloc: Global,
    publisher: &mut Publisher<Count, R>,
) -> bool
    requires none { length publisher.old.pending ≡ 0 }
    requires fixed { publisher.old.fixed ≡ 7 }
{
    'changes: for count in 0..200 {
        let Ok(()) = append(alloc, publisher, count) else {
            return false;
        };
        let Ok(note) = publisher.publish(rt) else {
            return false;
        };
        drop(note);
    }
    true
}

#[test]
fn two_passes_read_while_a_third_thread_publishes(rt: HostRuntime) -> Result<(), Fail> {
    let alloc = rt.alloc();
    let (mut publisher, one, other) = open(alloc, rt.clone()?)?;
    let first = thread::spawn(&rt, move || read_often(one))?;
    let second = thread::spawn(&rt, move || read_often(other))?;
    let published = publish_often(&rt, alloc, &mut publisher);
    let (mut one, first) = first.join(&rt);
    let (other, second) = second.join(&rt);
    assert!(rt; published && first && second);
    assert!(rt;
        one.refused() == 0 && one.ahead() == 0 && other.refused() == 0 && other.ahead() == 0
    );
    assert!(rt; one.read()?.front == 200 && publisher.front() == 200);
    Ok(())
}
