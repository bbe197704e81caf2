//! Who sees which of the values that were published, and when.
use crate::world::{Opened, read};
use gw_snap::SnapFaults;
use std::alloc::Global;
use std::sync::Wait;
use std::test::*;

// What a pass reads before a publication, learns of it and reads then, and what one reads that wasn't told.
fn told_and_untold<R: Wait + Drop, W: Wait>(
    alloc: Global,
    rt: &W,
    opened: &mut Opened<R>,
) -> Result<[(u64, u64); 4], Fail> {
    opened.append(alloc)?;
    opened.append(alloc)?;
    let before = read(&mut opened.one)?;
    let mut note = opened.publisher.publish(rt)?;
    opened.one.learn(&mut note);
    let learnt = (opened.one.front(), opened.publisher.front());
    Ok([
        before,
        learnt,
        read(&mut opened.one)?,
        read(&mut opened.other)?,
    ])
}

#[test]
fn a_pass_sees_what_it_learns_and_an_untold_one_what_is_published(
    rt: HostRuntime,
) -> Result<(), Fail> {
    let mut opened = Opened::new(rt.alloc(), rt.clone()?)?;
    let seen = told_and_untold(rt.alloc(), &rt, &mut opened)?;
    assert!(rt; seen == [(0, 0), (2, 2), (2, 2), (2, 2)]);
    Ok(())
}

// Reads twice by a pass whose publisher is gone: whether that was refused, and what the faults count then.
fn read_alone<R: Wait + Drop>(opened: Opened<R>, faults: &mut SnapFaults) -> (bool, u64, u64) {
    let Opened {
        publisher,
        mut one,
        other: _other,
        count: _,
    } = opened;
    drop(publisher);
    let refused = one.read().is_err() && one.read().is_err();
    faults.take(&one);
    (refused, faults.places(), faults.ahead())
}

#[test]
fn a_reading_without_a_publisher_is_refused_and_counted(rt: HostRuntime) -> Result<(), Fail> {
    let opened = Opened::new(rt.alloc(), rt.clone()?)?;
    assert!(rt; read_alone(opened, &mut SnapFaults::new()) == (true, 2, 0));
    Ok(())
}
