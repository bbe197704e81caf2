ghost use Rattle.std.specs.Prelude.{◌≡◌, ◌<◌, ◌≤◌, ◌++◌, [], length, set, codes, nat_eq, Some, None, IfOk, IfSome, OnOk, MatchResult, is_some, option_copied};
ghost use Rattle.std.specs.Cmp.Lexicographic.{slice_cmp};
ghost use Rattle.std.specs.List.{insert, remove as remove_place, starts_with};
ghost use Rattle.std.specs.List.Sorted.{IsSearchInRange};
ghost use Rattle.std.specs.Ordering.{is_lt, nat_cmp};
ghost use Rattle.gw_text.specs.model.Names.{cluster_key, joined, key_order};
ghost use Rattle.gw_text.specs.model.Stored.{put, remove, stored_at, stored_key, in_namespace, IsInKeyOrder};
ghost use Rattle.gw_store.specs.Table.{AllKeys, IsTable, StandsAt, IsMissingAt, IsPlaceOf, at_place};

use crate::change::Change;
use gw_text::{Incoming, Key, Name, NoMemory, Second, Stored, Text};
use std::alloc::Global;
use std::cmp::Ordering;
use std::marker::Model;
use std::snapshot::Snapshot;

/// An object with a key, in whose order it is held.
pub trait Keyed {
    ghost use Rattle.std.specs.Prelude.{IsTrue};
    ghost use Rattle.gw_text.specs.model.Forms.{is_key};
    ghost use Rattle.gw_text.specs.model.Names.{Key as Plain};

    /// The object's own key.
    ghost key: { Self → Plain };

    fn key(&self) -> &Key
        ensures value { result.now ≡ key self.now }
        ensures form { IsTrue (is_key (key self.now)) };
}

/// The objects of one kind in key order.
#[derive(Drop)]
pub struct Table<T: Keyed + Drop> {
    stored: Vec<Stored<T>>,
}

impl<T: Keyed + Drop> Model for Table<T> {
    ghost use Rattle.std.specs.Prelude.{◌-◌, vec_len, vec_capacity};
    ghost use Rattle.gw_store.specs.Table.{Content, IsTable};

    ghost Value = { Content T };

    ghost view = { λ t. record { stored = t.stored.items; spare = vec_capacity t.stored - vec_len t.stored } };

    ghost invariant = { λ t. IsTable T.key t.stored.items };
}

/// What a put or a removal displaced, and where: what it takes to undo it, with no memory.
#[derive(Drop)]
pub struct Displaced<T: Keyed + Drop> {
    change: Change<Stored<T>>,
    before: Snapshot<Table<T>>,
    after: Snapshot<Table<T>>,
}

impl<T: Keyed + Drop> Model for Displaced<T> {
    ghost use Rattle.std.specs.Prelude.{option_map};
    ghost use Rattle.gw_store.specs.Changes.{there};
    ghost use Rattle.gw_store.specs.Table.{Displacement, IsKept};

    ghost Value = { Displacement T };

    ghost view = { λ d. record { before = d.before.value; after = d.after.value; put = option_map (λ s. s.object) (there d.change.at d.change.has d.after.value.stored) } };

    ghost invariant = { λ d. IsKept T.key d.change.at d.change.had d.change.has d.before.value d.after.value };
}

impl<T: Keyed + Drop> Table<T> {
    /// Holds nothing.
    pub fn new(alloc: Global) -> Self
        ensures { result.stored ≡ [] }
    {
        Table {
            stored: Vec::new(alloc),
        }
    }

    /// Makes room for one object more.
    pub fn reserve(&mut self) -> Result<(), NoMemory>
        ensures stored { self.new.stored ≡ self.old.stored }
        ensures ok { OnOk result (0 < self.new.spare) }
    {
        self.stored.reserve(1)
    }

    /// The objects in key order.
    pub fn objects(&self) -> &[Stored<T>]
        ensures value { result.now ≡ self.now.stored }
        ensures order { IsInKeyOrder T.key result.now }
        ensures keys { AllKeys T.key result.now }
    {
        self.stored.as_slice()
    }

    /// How many objects are held.
    pub fn len(&self) -> usize
        ensures { result ≡ length self.now.stored }
    {
        self.objects().len()
    }

    /// Holds `object` under its key, in place of the one that is held there, whose first moment stays.
    pub fn put(&mut self, object: Incoming<T>, now: Second) -> Displaced<T>
        requires { 0 < self.old.spare }
        ensures stored { self.new.stored ≡ put T.key object now self.old.stored }
        ensures displaced { result ≡ record { before = self.old; after = self.new; put = Some object } }
    {
        match place(self.stored.as_slice(), object.key()) {
            Ok(at) => {
                let first = self.stored[at].first();
                self.set(at, object.stored(first))
            }
            Err(at) => self.insert(at, object.stored(now)),
        }
    }

    /// Takes away the object of this key, if there is one.
    pub fn remove(&mut self, key: &Key) -> Displaced<T>
        ensures stored { self.new.stored ≡ remove T.key key.now self.old.stored }
        ensures displaced { result ≡ record { before = self.old; after = self.new; put = None } }
    {
        match place(self.stored.as_slice(), key) {
            Ok(at) => self.remove_at(at),
            Err(_) => self.unchanged(),
        }
    }

    // Holds the object in the place of another, with which this is a table.
    fn set(&mut self, at: usize, object: Stored<T>) -> Displaced<T>
        requires within { at < length self.old.stored }
        requires table { IsTable T.key (set self.old.stored at object) }
        ensures stored { self.new.stored ≡ set self.old.stored at object }
        ensures displaced { result ≡ record { before = self.old; after = self.new; put = Some object.object } }
    {
        let before = Snapshot::of(self);
        let change = Change::set(&mut self.stored, at, object);
        Displaced {
            change,
            before,
            after: Snapshot::of(self),
        }
    }

    // Holds the object between others, with which this is a table.
    fn insert(&mut self, at: usize, object: Stored<T>) -> Displaced<T>
        requires place { at ≤ length self.old.stored }
        requires room { 0 < self.old.spare }
        requires table { IsTable T.key (insert self.old.stored at object) }
        ensures stored { self.new.stored ≡ insert self.old.stored at object }
        ensures displaced { result ≡ record { before = self.old; after = self.new; put = Some object.object } }
    {
        let before = Snapshot::of(self);
        let change = Change::insert(&mut self.stored, at, object);
        Displaced {
            change,
            before,
            after: Snapshot::of(self),
        }
    }

    // Takes the object of a place away, without which this is a table.
    fn remove_at(&mut self, at: usize) -> Displaced<T>
        requires within { at < length self.old.stored }
        requires table { IsTable T.key (remove_place self.old.stored at) }
        ensures stored { self.new.stored ≡ remove_place self.old.stored at }
        ensures displaced { result ≡ record { before = self.old; after = self.new; put = None } }
    {
        let before = Snapshot::of(self);
        let change = Change::remove(&mut self.stored, at);
        Displaced {
            change,
            before,
            after: Snapshot::of(self),
        }
    }

    // No change.
    fn unchanged(&self) -> Displaced<T>
        ensures { result ≡ record { before = self.now; after = self.now; put = None } }
    {
        let _ = &self.stored;
        Displaced {
            change: Change::nothing(),
            before: Snapshot::of(self),
            after: Snapshot::of(self),
        }
    }

    /// The table as it was before a put or a removal, which gives the object up that it put.
    pub fn undo(&mut self, displaced: Displaced<T>) -> Option<Incoming<T>>
        requires { self.old ≡ displaced.after }
        ensures table { self.new ≡ displaced.before }
        ensures put { result ≡ displaced.put }
    {
        let Displaced {
            change,
            before: _,
            after: _,
        } = displaced;
        let put = change.undo(&mut self.stored)?;
        Some(put.incoming())
    }

    /// Whether an object is held under `key`.
    pub fn holds(&self, key: &Key) -> bool
        ensures { result ≡ is_some (stored_at T.key key.now self.now.stored) }
    {
        self.get(key).is_some()
    }

    /// The object that is held under `key`.
    pub fn get(&self, key: &Key) -> Option<&Stored<T>>
        ensures { option_copied result ≡ stored_at T.key key.now self.now.stored }
    {
        match place(self.stored.as_slice(), key) {
            Ok(at) => Some(&self.stored[at]),
            Err(_) => None,
        }
    }

    /// The object that is held under this name alone, of a kind without namespaces.
    #[tactic(auto, using(crate::proofs::Namespaces::none_of_no_name))]
    pub fn named(&self, alloc: Global, name: &Text) -> Result<Option<&Stored<T>>, NoMemory>
        ensures { IfOk result (λ found. option_copied found ≡ stored_at T.key (cluster_key name.now) self.now.stored) }
    {
        if self.objects().is_empty() {
            return Ok(None);
        }
        match Name::of_text(name.copy(alloc)?) {
            Some(name) => Ok(self.get(&Key::of_cluster(alloc, name))),
            None => Ok(None),
        }
    }

    /// Where the object of `key` stands among all, or where it would stand.
    pub(crate) fn place_of(&self, key: &Key) -> Result<usize, usize>
        ensures range { IsSearchInRange result (length self.now.stored) }
        ensures place { MatchResult result (StandsAt T.key key.now self.now.stored) (IsMissingAt T.key key.now self.now.stored) }
    {
        place(self.objects(), key)
    }

    /// The place of the object that is held under `key` among all.
    pub fn position(&self, key: &Key) -> Option<usize>
        ensures place { IsPlaceOf T.key key.now self.now.stored result }
        ensures found { stored_at T.key key.now self.now.stored ≡ at_place self.now.stored result }
        ensures within { IfSome result (λ place. place < length self.now.stored) }
    {
        match place(self.stored.as_slice(), key) {
            Ok(at) => Some(at),
            Err(_) => None,
        }
    }

    /// The objects of a namespace, in key order.
    pub fn in_namespace(&self, namespace: &Text) -> &[Stored<T>]
        ensures value { result.now ≡ in_namespace T.key namespace.now self.now.stored }
        ensures order { IsInKeyOrder T.key result.now }
    {
        let objects = self.stored.as_slice();
        let first = objects.partition_point(|object| is_before(object, namespace));
        let rest = &objects[first..];
        let count = rest.partition_point(|object| is_in(object, namespace));
        &rest[..count]
    }
}

fn is_before<T: Keyed + Drop>(object: &Stored<T>, namespace: &Text) -> bool
    ensures { result ≡ is_lt (slice_cmp nat_cmp (joined (stored_key T.key object.now)) (namespace.now ++ codes "/")) }
{
    object.key().is_before(namespace)
}

fn is_in<T: Keyed + Drop>(object: &Stored<T>, namespace: &Text) -> bool
    ensures { result ≡ starts_with nat_eq (joined (stored_key T.key object.now)) (namespace.now ++ codes "/") }
{
    object.key().is_in(namespace)
}

// Where the object of `key` stands, or where it would stand.
fn place<T: Keyed + Drop>(stored: &[Stored<T>], key: &Key) -> Result<usize, usize>
    requires order { IsInKeyOrder T.key stored.now }
    requires keys { AllKeys T.key stored.now }
    ensures range { IsSearchInRange result (length stored.now) }
    ensures place { MatchResult result (StandsAt T.key key.now stored.now) (IsMissingAt T.key key.now stored.now) }
{
    let key = key.formed();
    stored.binary_search_by(|object| compare(object, key))
}

fn compare<T: Keyed + Drop>(object: &Stored<T>, key: &Key) -> Ordering
    ensures { result ≡ key_order (stored_key T.key object.now) key.now }
{
    object.key().compare(key)
}
