//! The parameters of a query, decoded and in the order of their names.
ghost use Rattle.std.specs.Prelude.{◌≡◌, Some, IfOk, slice_get, option_copied, option_map};
ghost use Rattle.std.specs.List.Sorted.{IsSortedBy};
ghost use Rattle.percent_encoding.specs.Percent as percent;
ghost use Rattle.gw_query.specs.Cut.{parameter_in};
ghost use Rattle.gw_query.specs.Sorted.{AreSorted, if_named, is_before};
ghost use Rattle.gw_query.specs.model.Parameters as rules;

use crate::part::{Part, first_part};
use gw_text::{NoMemory, Text};
use percent_encoding::percent_decode;
use std::alloc::Global;
use std::borrow::CowSlice;
use std::marker::Model;

/// A parameter, decoded.
#[derive(Drop)]
pub(crate) struct Decoded {
    name: Text,
    value: Text,
}

impl Model for Decoded {
    ghost use Rattle.gw_query.specs.model.Parameters.{Parameter};

    ghost Value = { Parameter };

    ghost view = { λ d. record { name = d.name; value = d.value } };
}

impl Decoded {
    fn of(alloc: Global, part: &Part) -> Result<Self, NoMemory>
        ensures { IfOk result (λ decoded. decoded ≡ parameter_in part.now) }
    {
        Ok(Decoded {
            name: decode(alloc, part.name)?,
            value: decode(alloc, part.value)?,
        })
    }

    fn name(&self) -> &Text
        ensures { result.now ≡ self.now.name }
    {
        &self.name
    }

    fn value(&self) -> &Text
        ensures { result.now ≡ self.now.value }
    {
        &self.value
    }
}

// A text that is short takes no memory where nothing in it is encoded.
fn decode(alloc: Global, text: &[u8]) -> Result<Text, NoMemory>
    ensures { IfOk result (λ decoded. decoded ≡ percent.percent_decode text.now) }
{
    match percent_decode(text).into_cow(alloc)? {
        CowSlice::Borrowed(same) => Text::from_bytes(alloc, same),
        CowSlice::Owned(bytes) => Ok(Text::from_vec(bytes)),
    }
}

fn decode_all(alloc: Global, query: &[u8]) -> Result<Vec<Decoded>, NoMemory>
    ensures { IfOk result (λ decoded. decoded.items ≡ rules.parameters_of (Some query.now)) }
{
    let mut decoded = Vec::new(alloc);
    let mut rest = Some(query);
    'parts: while let Some(text) = rest {
        let (part, left) = first_part(text);
        decoded.push(Decoded::of(alloc, &part)?)?;
        rest = left;
    }
    Ok(decoded)
}

/// Those of a query. Names that are chosen to be alike make it no dearer.
pub(crate) fn sorted_of(alloc: Global, query: &[u8]) -> Result<Vec<Decoded>, NoMemory>
    ensures { IfOk result (λ sorted. AreSorted sorted.items (rules.parameters_of (Some query.now))) }
{
    let mut sorted = decode_all(alloc, query)?;
    sorted.sort_by(|a, b| a.name().cmp(b.name()))?;
    Ok(sorted)
}

fn item_at(sorted: &[Decoded], at: usize) -> Option<&Decoded>
    ensures { option_copied result ≡ slice_get sorted.now at }
{
    sorted.get(at)
}

// The value of a parameter that may be there, where it has the name.
fn value_if_named<'d>(decoded: Option<&'d Decoded>, name: &Text) -> Option<&'d [u8]>
    ensures { option_copied result ≡ option_map (λ p. p.value) (if_named name.now (option_copied decoded.entry)) }
{
    match decoded {
        Some(decoded) if decoded.name() == name => Some(decoded.value().bytes()),
        _ => None,
    }
}

/// The value of the first of them that has the name.
pub(crate) fn value_at<'d>(sorted: &'d [Decoded], name: &Text) -> Option<&'d [u8]>
    requires { IsSortedBy is_before sorted.now }
    ensures { option_copied result ≡ rules.first_value name.now sorted.now }
{
    let first = sorted.partition_point(|decoded| decoded.name().cmp(name).is_lt());
    value_if_named(item_at(sorted, first), name)
}
