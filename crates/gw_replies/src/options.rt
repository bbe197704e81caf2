//! The names that Connection has, so that each field is looked for among them in few steps.
ghost use Rattle.std.specs.Prelude.{◌≡◌, ◌∷◌, ◌++◌, ℕ, [], List, Bool, map, IfOk, OnOk};
ghost use Rattle.std.specs.Cmp.Lexicographic.{slice_cmp};
ghost use Rattle.std.specs.List.{list_any};
ghost use Rattle.std.specs.Ordering.{nat_cmp};
ghost use Rattle.gw_messages.specs.model.Values.{elements, lower};
ghost use Rattle.gw_text.specs.model.Fields.{same_field_name};
ghost use Rattle.gw_replies.specs.model.Hops.{connection_options};

use gw_messages::element::{first_element, trim};
use gw_text::{Field, NoMemory};
use std::alloc::Global;
use std::cmp::Ordering;
use std::marker::Model;

/// The names that Connection has, in the order of their texts in lower case.
#[derive(Drop)]
pub struct Options<'f> {
    names: Vec<&'f [u8]>,
}

impl<'f> Model for Options<'f> {
    ghost use Rattle.std.specs.Prelude.{ℕ, List, map};
    ghost use Rattle.gw_replies.specs.Options.{IsInOrder};

    ghost Value = { List (List ℕ) };

    ghost view = { λ o. map (λ n. n.now) o.names.items };

    ghost invariant = { λ o. IsInOrder o.names.items };
}

impl<'f> Options<'f> {
    /// Those of these fields.
    pub fn of(alloc: Global, fields: &'f [Field]) -> Result<Self, NoMemory>
        ensures { (test : List ℕ → Bool) → IfOk result (λ options. list_any test options ≡ list_any test (connection_options fields.now)) }
    {
        let mut names = gather(alloc, fields)?;
        names.sort_unstable_by(|a, b| compare(a, b));
        Ok(Options { names })
    }

    /// Whether this is one of them, in upper or lower case.
    pub fn has(&self, name: &[u8]) -> bool
        ensures { result ≡ list_any (same_field_name name.now) self.now }
    {
        self.names
            .binary_search_by(|option| compare(option, name))
            .is_ok()
    }
}

// The names that Connection has, in their order.
fn gather<'f>(alloc: Global, fields: &'f [Field]) -> Result<Vec<&'f [u8]>, NoMemory>
    ensures { IfOk result (λ names. map (λ n. n.now) names.items ≡ connection_options fields.now) }
{
    let mut names = Vec::new(alloc);
    'fields: for field in fields {
        push_options(&mut names, field)?;
    }
    Ok(names)
}

fn push_options<'f>(names: &mut Vec<&'f [u8]>, field: &'f Field) -> Result<(), NoMemory>
    ensures { OnOk result (map (λ n. n.now) names.new.items ≡ map (λ n. n.now) names.old.items ++ connection_options (field.now ∷ [])) }
{
    if field.is_named(b"connection") {
        push_elements(names, field.value.bytes())?;
    }
    Ok(())
}

fn push_elements<'f>(names: &mut Vec<&'f [u8]>, value: &'f [u8]) -> Result<(), NoMemory>
    ensures { OnOk result (map (λ n. n.now) names.new.items ≡ map (λ n. n.now) names.old.items ++ elements value.now) }
{
    let mut rest = Some(value);
    'elements: while let Some(text) = rest {
        let (element, left) = first_element(text);
        names.push(trim(element))?;
        rest = left;
    }
    Ok(())
}

// The order of two texts in lower case.
fn compare(a: &[u8], b: &[u8]) -> Ordering
    ensures { result ≡ slice_cmp nat_cmp (lower a.now) (lower b.now) }
{
    let mut left = a;
    let mut right = b;
    'bytes: while let (Some((x, xs)), Some((y, ys))) = (left.split_first(), right.split_first()) {
        let order = x.to_ascii_lowercase().cmp(&y.to_ascii_lowercase());
        if order.is_ne() {
            return order;
        }
        left = xs;
        right = ys;
    }
    left.len().cmp(&right.len())
}
