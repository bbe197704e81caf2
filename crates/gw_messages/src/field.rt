ghost use Rattle.std.specs.Prelude.{◌≡◌, ℕ, [], ◌∷◌, ◌++◌, List, Bool};
ghost use Rattle.std.specs.List.{list_all, list_any};
ghost use Rattle.gw_messages.specs.model.Values.{are_one_number, has_element, has_field, is_same_number, values_of};
ghost use Rattle.gw_messages.specs.Fields.{Shows};

use crate::element;
use crate::number::{is_number, without_zeros};
use gw_text::Field;

/// Whether some field has this name.
pub fn has_field(fields: &[Field], name: &[u8]) -> bool
    ensures { result ≡ has_field name.now fields.now }
{
    fields.iter().any(|field| field.is_named(name))
}

/// Whether a field of this name has the word among its elements.
pub fn has_element(fields: &[Field], name: &[u8], word: &[u8]) -> bool
    ensures { result ≡ has_element word.now (values_of name.now fields.now) }
{
    'fields: for field in fields {
        if names_element(field, name, word) {
            return true;
        }
    }
    false
}

fn names_element(field: &Field, name: &[u8], word: &[u8]) -> bool
    ensures { result ≡ has_element word.now (values_of name.now (field.now ∷ [])) }
{
    if !field.is_named(name) {
        return false;
    }
    element::has_element(field.value.bytes(), word)
}

// Whether each field of this name is a number, and the same one as the first.
fn are_same_number(fields: &[Field], name: &[u8], first: &[u8]) -> bool
    ensures { result ≡ list_all (is_same_number first.now) (values_of name.now fields.now) }
{
    'fields: for field in fields {
        if !agrees(field, name, first) {
            return false;
        }
    }
    true
}

fn agrees(field: &Field, name: &[u8], first: &[u8]) -> bool
    ensures { result ≡ list_all (is_same_number first.now) (values_of name.now (field.now ∷ [])) }
{
    if !field.is_named(name) {
        return true;
    }
    is_same_number(first, field.value.bytes())
}

fn is_same_number(first: &[u8], text: &[u8]) -> bool
    ensures { result ≡ is_same_number first.now text.now }
{
    is_number(text) && without_zeros(text) == without_zeros(first)
}

/// The values of the fields of one name, as far as they are told apart.
#[derive(Clone, Copy)]
pub enum Values<'f> {
    Absent,
    One(&'f [u8]),
    Many(&'f [u8]),
}

/// The values of the fields of this name.
pub fn values_of<'f>(fields: &'f [Field], name: &[u8]) -> Values<'f>
    ensures { Shows (values_of name.now fields.now) result }
{
    let mut values = Values::Absent;
    'fields: for field in fields {
        values = with_field(values, field, name);
    }
    values
}

fn with_field<'f>(values: Values<'f>, field: &'f Field, name: &[u8]) -> Values<'f>
    ensures { (xs : List (List ℕ)) → Shows xs values.entry → Shows (xs ++ values_of name.now (field.now ∷ [])) result }
{
    if !field.is_named(name) {
        return values;
    }
    with_value(values, field.value.bytes())
}

fn with_value<'f>(values: Values<'f>, value: &'f [u8]) -> Values<'f>
    ensures { (xs : List (List ℕ)) → Shows xs values.entry → Shows (xs ++ value.now ∷ []) result }
{
    match values {
        Values::Absent => Values::One(value),
        Values::One(first) => Values::Many(first),
        Values::Many(first) => Values::Many(first),
    }
}

/// Whether the fields of this name are numbers, all of them the same.
pub fn are_one_number(fields: &[Field], name: &[u8]) -> bool
    ensures { result ≡ are_one_number (values_of name.now fields.now) }
{
    match values_of(fields, name) {
        Values::Absent => true,
        Values::One(first) | Values::Many(first) => are_same_number(fields, name, first),
    }
}
