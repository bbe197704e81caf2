//! Members of an object that is to be printed.
ghost use Rattle.std.specs.Prelude.{◌≡◌, OnOk};
ghost use Rattle.serde_json.specs.Data.{number, string, unsigned, put};
ghost use Rattle.serde_json.specs.View.{members_view};

use serde_json::{Map, Value, put};
use std::alloc::{AllocError, Global};

/// Puts a text under the name.
pub fn put_text(
    alloc: Global,
    members: &mut Map<String, Value>,
    name: &str,
    text: &str,
) -> Result<(), AllocError>
    ensures { OnOk result (members_view members.new.entries ≡ put name.now (string text.now) (members_view members.old.entries)) }
{
    let text = String::from_str(alloc, text)?;
    put(members, alloc, name, Value::from(text))
}

/// Puts a number under the name.
pub fn put_number(
    alloc: Global,
    members: &mut Map<String, Value>,
    name: &str,
    n: u64,
) -> Result<(), AllocError>
    ensures { OnOk result (members_view members.new.entries ≡ put name.now (number (unsigned n)) (members_view members.old.entries)) }
{
    put(members, alloc, name, Value::from(n))
}
