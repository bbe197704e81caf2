//! Which row may be put where another one stands.
ghost use Rattle.std.specs.Prelude.{◌≡◌, true};
ghost use Rattle.gw_cells.specs.model.Addresses.{place_of};
ghost use Rattle.gw_cells.specs.model.Order.{StandsFor};

use crate::addressing::is_exact;
use gw_rows::{Row, precedence};
use gw_text::Host;

/// Whether both are one hostname, or none.
pub fn is_same_host(a: &Option<Host>, b: &Option<Host>) -> bool
    ensures { result ≡ true → a.now ≡ b.now }
{
    match (a, b) {
        (Some(a), Some(b)) => a.wild == b.wild && a.text == b.text,
        (None, None) => true,
        _ => false,
    }
}

fn is_same_path(a: &Row, b: &Row) -> bool
    ensures { result ≡ true → place_of a.now.test.path ≡ place_of b.now.test.path }
{
    let (a, b) = (&a.test.path, &b.test.path);
    is_exact(&a.sort) == is_exact(&b.sort) && a.value == b.value
}

/// Whether the row may be put where the other one stands: it has its hostname and its path, and precedence doesn't tell them apart.
pub fn stands_for(row: &Row, former: &Row) -> bool
    ensures { result ≡ true → StandsFor row.now former.now }
{
    is_same_host(&row.hostname, &former.hostname)
        && is_same_path(row, former)
        && precedence(former, row).is_eq()
}
