//! Handles one behind another, of which some give way to others.
ghost use Rattle.std.specs.Prelude.{◌≡◌, ◌+◌, ◌≤◌, ◌<◌, ◌++◌, IfOk, OnOk, length, option_to_list, slice_set};
ghost use Rattle.gw_shared.specs.model.Elements as elements;

use crate::handle::Handle;
use gw_text::NoMemory;
use std::alloc::Global;

/// The one that there is, or none.
pub(crate) fn one_or_none<X: Drop>(alloc: Global, one: Option<X>) -> Result<Vec<X>, NoMemory>
    ensures { IfOk result (λ all. all.items ≡ option_to_list one) }
{
    let mut all = Vec::new(alloc);
    if let Some(one) = one {
        all.push(one)?;
    }
    Ok(all)
}

// Puts one handle more on each of these at the end.
fn push_handles<X: Handle + Drop>(kept: &mut Vec<X>, handles: &[X]) -> Result<(), NoMemory>
    ensures { OnOk result (kept.new.items ≡ kept.old.items ++ handles.now) }
{
    'handles: for handle in handles {
        kept.push(handle.one_more()?)?;
    }
    Ok(())
}

/// Handles on these, with others in place of so many from a place on.
pub(crate) fn spliced<X: Handle + Drop>(
    alloc: Global,
    handles: &[X],
    at: usize,
    count: usize,
    mut others: Vec<X>,
) -> Result<Vec<X>, NoMemory>
    requires { at + count ≤ length handles.now }
    ensures { IfOk result (λ all. all.items ≡ elements.replaced at count others.items handles.now) }
{
    let number = handles.len().saturating_add(others.len());
    let mut all = Vec::with_capacity(alloc, number)?;
    push_handles(&mut all, &handles[..at])?;
    all.append(&mut others)?;
    push_handles(&mut all, &handles[at + count..])?;
    Ok(all)
}

/// A handle on each of these.
pub(crate) fn all_handles<X: Handle + Drop>(
    alloc: Global,
    handles: &[X],
) -> Result<Vec<X>, NoMemory>
    ensures { IfOk result (λ all. all.items ≡ handles.now) }
{
    let mut all = Vec::with_capacity(alloc, handles.len())?;
    push_handles(&mut all, handles)?;
    Ok(all)
}

/// A handle on each of these but the one of this place, where another one stands.
pub(crate) fn handles_with<X: Handle + Drop>(
    alloc: Global,
    handles: &[X],
    at: usize,
    other: X,
) -> Result<Vec<X>, NoMemory>
    requires { at < length handles.now }
    ensures { IfOk result (λ all. all.items ≡ slice_set handles.now at other) }
{
    let mut all = all_handles(alloc, handles)?;
    all[at] = other;
    Ok(all)
}
