//! Where a row stands among the cells.
ghost use Rattle.std.specs.Prelude.{◌≡◌, IfOk, Some, if◌then◌else◌};
ghost use Rattle.gw_cells.specs.Cells.{seen_address};
ghost use Rattle.gw_cells.specs.model.Addresses as rules;
ghost use Rattle.gw_rows.specs.model.Precedence as order;
ghost use Rattle.gw_text.specs.model.Paths as paths;

use crate::address::Address;
use gw_rows::Row;
use gw_text::{Host, NoMemory, PathMatchType};
use std::alloc::Global;

fn name_of_host(alloc: Global, host: &Host) -> Result<Vec<u8>, NoMemory>
    ensures { IfOk result (λ name. name.items ≡ rules.name_of (Some host.now)) }
{
    let mut name = Vec::new(alloc);
    if host.wild {
        name.push(b'.')?;
    }
    name.extend_from_slice(host.text.bytes())?;
    Ok(name)
}

fn name_of(alloc: Global, hostname: &Option<Host>) -> Result<Vec<u8>, NoMemory>
    ensures { IfOk result (λ name. name.items ≡ rules.name_of hostname.now) }
{
    match hostname {
        Some(host) => name_of_host(alloc, host),
        None => Ok(Vec::new(alloc)),
    }
}

fn without_slash(value: &[u8]) -> &[u8]
    ensures { result.now ≡ paths.without_slash value.now }
{
    if value.ends_with(b"/") {
        &value[..value.len() - 1]
    } else {
        value
    }
}

/// Whether a path is asked for exactly.
pub(crate) fn is_exact(sort: &PathMatchType) -> bool
    ensures { result ≡ order.is_exact_type sort.now }
{
    match sort {
        PathMatchType::Exact => true,
        PathMatchType::PathPrefix | PathMatchType::Other(_) => false,
    }
}

fn text_of(is_exact: bool, value: &[u8]) -> &[u8]
    ensures { result.now ≡ (if is_exact then value.now else paths.without_slash value.now) }
{
    if is_exact {
        value
    } else {
        without_slash(value)
    }
}

/// The address of a row.
pub(crate) fn address_of(alloc: Global, row: &Row) -> Result<Address, NoMemory>
    ensures { IfOk result (λ address. seen_address address ≡ rules.address_of row.now) }
{
    let is_exact = is_exact(&row.test.path.sort);
    let name = name_of(alloc, &row.hostname)?;
    let path = text_of(is_exact, row.test.path.value.bytes()).to_vec(alloc)?;
    Ok(Address {
        name,
        is_exact,
        path,
    })
}
