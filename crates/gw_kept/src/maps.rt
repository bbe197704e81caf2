//! The maps in which numbers are looked up, and how those of one Gateway are put in place of others.
ghost use Rattle.std.specs.Prelude.{◌≡◌, ℕ, List, IfOk, OnOk, bytes_eq, slice_index, if◌then◌else◌};
ghost use Rattle.gw_text.specs.model.Names.{Key as Plain, same_key};
ghost use Rattle.gw_kept.specs.Numbers as rules;

use crate::listener_numbers::are_none;
use gw_shared::SharedMap;
use gw_text::{Key, NoMemory};
use std::alloc::Global;

/// The numbers of the Gateways of one namespace, by name.
pub(crate) type Names = SharedMap<Vec<u64>>;

/// Those of all namespaces.
pub(crate) type Namespaces = SharedMap<Names>;

fn numbers_of<'n>(names: &'n Names, name: &[u8]) -> &'n [u64]
    ensures { result.now ≡ rules.at_name names.now name.now }
{
    match names.get(name) {
        Some(numbers) => numbers.as_slice(),
        None => &[],
    }
}

/// The numbers of a Gateway; where it has none, an empty list.
pub(crate) fn numbers_at<'n>(namespaces: &'n Namespaces, gateway: &Key) -> &'n [u64]
    ensures { result.now ≡ rules.at_key namespaces.now gateway.now }
{
    match namespaces.get(gateway.namespace.bytes()) {
        Some(names) => numbers_of(names, gateway.name.bytes()),
        None => &[],
    }
}

// A copy of the numbers of a namespace, or none.
fn names_of(alloc: Global, namespaces: &Namespaces, namespace: &[u8]) -> Result<Names, NoMemory>
    ensures { IfOk result (λ names. (name : List ℕ) → rules.at_name names name ≡ rules.at_namespace namespaces.now namespace.now name) }
{
    match namespaces.get(namespace) {
        Some(names) => names.share(alloc),
        None => Ok(SharedMap::new(alloc)),
    }
}

// Numbers that are all 0 take no place.
fn put_numbers(
    alloc: Global,
    names: &mut Names,
    name: &[u8],
    numbers: Vec<u64>,
) -> Result<(), NoMemory>
    ensures { OnOk result ((other : List ℕ) (place : ℕ) → slice_index (rules.at_name names.new other) place
        ≡ (if bytes_eq other name.now then slice_index numbers.items place else slice_index (rules.at_name names.old other) place)) }
{
    if are_none(numbers.as_slice()) {
        return names.remove(alloc, name);
    }
    names.put(alloc, name, numbers)
}

// A namespace without numbers takes no place.
fn put_names(
    alloc: Global,
    namespaces: &mut Namespaces,
    namespace: &[u8],
    names: Names,
) -> Result<(), NoMemory>
    ensures { OnOk result ((other name : List ℕ) → rules.at_namespace namespaces.new other name
        ≡ (if bytes_eq other namespace.now then rules.at_name names name else rules.at_namespace namespaces.old other name)) }
{
    if names.is_empty() {
        return namespaces.remove(alloc, namespace);
    }
    namespaces.put(alloc, namespace, names)
}

/// Puts numbers in place of those of a Gateway.
pub(crate) fn put_at(
    alloc: Global,
    namespaces: &mut Namespaces,
    gateway: &Key,
    numbers: Vec<u64>,
) -> Result<(), NoMemory>
    ensures { OnOk result ((key : Plain) (place : ℕ) → slice_index (rules.at_key namespaces.new key) place
        ≡ (if same_key key gateway.now then slice_index numbers.items place else slice_index (rules.at_key namespaces.old key) place)) }
{
    let namespace = gateway.namespace.bytes();
    let mut names = names_of(alloc, namespaces, namespace)?;
    put_numbers(alloc, &mut names, gateway.name.bytes(), numbers)?;
    put_names(alloc, namespaces, namespace, names)
}
