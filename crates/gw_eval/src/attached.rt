//! How many Routes are attached to each listener.
ghost use Rattle.std.specs.Prelude.{◌≡◌, ◌<◌, ◌+◌, ◌^◌, ◌&&◌, ℕ, [], IfOk, length, map, nat_eq, not, true, false, get_or};
ghost use Rattle.std.specs.List.{All, list_any};
ghost use Rattle.gw_eval.specs.Counting.{attaches, is_first, more, no_numbers, number_at, AreBelow, AreCounted};

use crate::entries::Entry;
use gw_store::World;
use gw_text::NoMemory;
use std::alloc::Global;
use std::marker::Model;

/// For each Gateway of the world, how many Routes are attached to each of its listeners.
#[derive(Drop)]
pub struct Counts {
    rows: Vec<Vec<u64>>,
}

impl Model for Counts {
    ghost use Rattle.std.specs.Prelude.{ℕ, List, map, vec_items};

    ghost Value = { List (List ℕ) };

    ghost view = { λ c. map vec_items c.rows.items };
}

/// Whether the place is among these.
pub fn contains(places: &[usize], place: usize) -> bool
    ensures { result ≡ list_any (nat_eq place) places.now }
{
    places.iter().any(|other| place == *other)
}

// Whether the entry attaches its Route to the listener of this Gateway.
fn attaches_to(entry: &Entry<'_>, gateway: usize, place: usize) -> bool
    ensures { result ≡ (nat_eq entry.now.gateway gateway && list_any (nat_eq place) entry.now.entry.attachment.listeners) }
{
    entry.gateway == gateway && contains(entry.attachment.listeners.as_slice(), place)
}

// Whether one of these attaches the Route to the listener.
fn attaches(all: &[Entry<'_>], gateway: usize, place: usize) -> bool
    ensures { result ≡ attaches all.now gateway place }
{
    all.iter().any(|entry| attaches_to(entry, gateway, place))
}

// Whether a place stands nowhere before. One above `highest` doesn't; places ascend, so hardly any is looked for.
fn is_new(before: &[usize], highest: usize, place: usize) -> bool
    requires { highest < place → list_any (nat_eq place) before.now ≡ false }
    ensures { result ≡ not (list_any (nat_eq place) before.now) }
{
    highest < place || !contains(before, place)
}

// Whether a Route is counted at a place: it stands nowhere before in the entry's list, and no earlier entry attaches the Route there.
fn is_counted(
    earlier: &[Entry<'_>],
    gateway: usize,
    before: &[usize],
    highest: usize,
    place: usize,
) -> bool
    requires { highest < place → list_any (nat_eq place) before.now ≡ false }
    ensures { result ≡ (not (list_any (nat_eq place) before.now) && not (attaches earlier.now gateway place)) }
{
    is_new(before, highest, place) && !attaches(earlier, gateway, place)
}

fn count_place(row: &mut [u64], place: usize, is_counted: bool)
    requires { is_counted ≡ true → place < length row.old → get_or row.old place 0 < 2 ^ 63 + 1 }
    ensures length { length row.new ≡ length row.old }
    ensures numbers { (other : ℕ) → other < length row.old → get_or row.new other 0 ≡ more (is_counted && nat_eq other place) (get_or row.old other 0) }
{
    if is_counted && place < row.len() {
        row[place] += 1;
    }
}

fn count_row(row: &mut [u64], earlier: &[Entry<'_>], entry: &Entry<'_>)
    requires { (place : ℕ) → place < length row.old → get_or row.old place 0 < 2 ^ 63 + 1 }
    ensures length { length row.new ≡ length row.old }
    ensures numbers { (place : ℕ) → place < length row.old →
        get_or row.new place 0 ≡ more (is_first earlier.now entry.now place) (get_or row.old place 0) }
{
    let places = entry.attachment.listeners.as_slice();
    let mut highest = 0;
    'places: for (index, place) in places.iter().enumerate() {
        let is_counted = is_counted(earlier, entry.gateway, &places[..index], highest, *place);
        count_place(row, *place, is_counted);
        highest = highest.max(*place);
    }
}

impl Counts {
    /// None so far.
    pub fn new(alloc: Global, world: &World) -> Result<Self, NoMemory>
        ensures { IfOk result (λ counts. counts ≡ no_numbers world.now.world.gateways) }
    {
        let mut rows = Vec::new(alloc);
        'gateways: for gateway in world.gateways() {
            rows.push(vec![in alloc; 0; gateway.listeners.len()]?)?;
        }
        Ok(Counts { rows })
    }

    /// The numbers of the listeners of the Gateway at this place, in list order.
    pub fn of_gateway(&self, gateway: usize) -> &[u64]
        requires { gateway < length self.now }
        ensures { result.now ≡ get_or self.now gateway [] }
    {
        self.rows[gateway].as_slice()
    }

    // Counts a Route where this entry attaches it and no earlier entry of it does.
    fn count(&mut self, earlier: &[Entry<'_>], entry: &Entry<'_>)
        requires gateway { entry.now.gateway < length self.old }
        requires room { AreBelow (2 ^ 63 + 1) self.old }
        ensures rows { map length self.new ≡ map length self.old }
        ensures numbers { (gateway place : ℕ) → place < length (get_or self.old gateway []) →
            number_at self.new gateway place
            ≡ more (nat_eq entry.now.gateway gateway && is_first earlier.now entry.now place) (number_at self.old gateway place) }
    {
        count_row(self.rows[entry.gateway].as_mut_slice(), earlier, entry);
    }

    /// Counts a Route that has these entries, once at each listener to which one of them attaches it.
    pub fn count_route(&mut self, entries: &[Entry<'_>])
        requires gateways { All (λ p. p.gateway < length self.old) entries.now }
        requires room { AreBelow (2 ^ 63) self.old }
        ensures { AreCounted self.old entries.now self.new }
    {
        'entries: for (index, entry) in entries.iter().enumerate() {
            self.count(&entries[..index], entry);
        }
    }
}
