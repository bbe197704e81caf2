//! The Routes of the rows that were looked at so far, with their reasons.
ghost use Rattle.std.specs.Prelude.{◌≡◌, [], length, OnOk, IsTrue, MatchResult};
ghost use Rattle.std.specs.List.Sorted.{IsSearchInRange};
ghost use Rattle.gw_text.specs.model.Forms.{is_key};
ghost use Rattle.gw_text.specs.model.Names.{key_order};
ghost use Rattle.gw_decide.specs.Entries.{AllFormed, IsInKeyOrder, IsMissingAt, StandsAt, noted};

use crate::why::Why;
use gw_text::{Key, NoMemory};
use std::alloc::Global;
use std::cmp::Ordering;
use std::marker::Model;

/// Routes, each once and in key order, with their reasons.
pub type Explained = Vec<(Key, Why)>;

/// The Routes of the rows so far.
#[derive(Drop)]
pub struct Reasons {
    entries: Explained,
}

impl Model for Reasons {
    ghost use Rattle.std.specs.Prelude.{List};
    ghost use Rattle.gw_decide.specs.Entries.{Entry, IsExplained};

    ghost Value = { List Entry };

    ghost view = { λ r. r.entries.items };

    ghost invariant = { λ r. IsExplained r.entries.items };
}

impl Reasons {
    /// No Routes.
    pub fn new(alloc: Global) -> Self
        ensures { result ≡ [] }
    {
        Reasons {
            entries: Vec::new(alloc),
        }
    }

    /// A row of this Route came so far: the Route's reason is the furthest.
    pub fn note(&mut self, alloc: Global, key: &Key, why: Why) -> Result<(), NoMemory>
        ensures noted { OnOk result (self.new ≡ noted self.old key.now why) }
        ensures form { IsTrue (is_key key.now) }
    {
        let key = key.formed();
        match place(self.entries.as_slice(), key) {
            Ok(at) => {
                let entry = &mut self.entries[at];
                entry.1 = entry.1.further(why);
            }
            Err(at) => {
                let key = key.copy(alloc)?;
                self.entries.insert(at, (key, why))?;
            }
        }
        Ok(())
    }

    /// The Routes with their reasons, without a copy.
    pub fn into_entries(self) -> Explained
        ensures { result.items ≡ self }
    {
        self.entries
    }
}

// Where the Route of this key stands, or where it would stand.
fn place(entries: &[(Key, Why)], key: &Key) -> Result<usize, usize>
    requires order { IsInKeyOrder entries.now }
    requires keys { AllFormed entries.now }
    ensures range { IsSearchInRange result (length entries.now) }
    ensures place { MatchResult result (StandsAt key.now entries.now) (IsMissingAt key.now entries.now) }
{
    let key = key.formed();
    entries.binary_search_by(|entry| compare(entry, key))
}

fn compare(entry: &(Key, Why), key: &Key) -> Ordering
    ensures { result ≡ key_order entry.now.0 key.now }
{
    entry.0.compare(key)
}
