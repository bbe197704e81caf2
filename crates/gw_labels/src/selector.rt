ghost use Rattle.std.specs.Prelude.{◌≡◌, [], ◌∷◌, ◌++◌, IfOk, OnOk, OnErr, option_copied, bytes_eq, string_bytes, map};
ghost use Rattle.std.specs.List.{list_any};
ghost use Rattle.std.specs.Map.{keys_of};
ghost use Rattle.gw_labels.specs.Selectors.{is_among, meets, selects};

use crate::labels::Labels;
use std::alloc::{AllocError, Global};
use std::marker::Model;

/// What a requirement asks of its key.
#[derive(Clone, Copy, Debug, PartialEq, Eq)]
pub enum Op {
    /// The key is there, with one of the values.
    In,
    /// The key is absent, or has none of the values.
    NotIn,
    /// The key is there.
    Exists,
    /// The key is absent.
    DoesNotExist,
}

/// What is asked of one key of labels.
#[derive(Drop)]
pub struct Requirement {
    key: String,
    op: Op,
    values: Vec<String>,
}

impl Model for Requirement {
    ghost use Rattle.std.specs.Prelude.{map, string_bytes};
    ghost use Rattle.gw_labels.specs.Selectors.{Requirement as Plain};

    ghost Value = { Plain };

    ghost view = { λ r. record { key = string_bytes r.key; op = r.op; values = map string_bytes r.values.items } };
}

impl Requirement {
    /// What is asked of the key; the values are the keys of `values`.
    pub fn new(alloc: Global, key: &str, op: Op, values: &Labels) -> Result<Requirement, AllocError>
        ensures { IfOk result (λ r. r ≡ record { key = key.now; op = op; values = keys_of values.now }) }
    {
        let key = String::from_str(alloc, key)?;
        let values = values.keys(alloc)?;
        Ok(Requirement { key, op, values })
    }

    fn is_met(&self, labels: &Labels) -> bool
        ensures { result ≡ meets labels.now self.now }
    {
        let found = labels.get(self.key.as_str());
        match self.op {
            Op::In => is_one_of(self.values.as_slice(), found),
            Op::NotIn => !is_one_of(self.values.as_slice(), found),
            Op::Exists => found.is_some(),
            Op::DoesNotExist => found.is_none(),
        }
    }
}

fn is_one_of(values: &[String], found: Option<&str>) -> bool
    ensures { result ≡ is_among (map string_bytes values.now) (option_copied found.entry) }
{
    match found {
        Some(value) => contains(values, value),
        None => false,
    }
}

fn contains(values: &[String], value: &str) -> bool
    ensures { result ≡ list_any (λ other. bytes_eq value.now (string_bytes other)) values.now }
{
    values.iter().any(|other| value == other.as_str())
}

/// A list of requirements on labels, all of which must hold. Without any it accepts all labels.
pub struct Selector {
    alloc: Global,
    needs: Vec<Requirement>,
}

impl Model for Selector {
    ghost use Rattle.std.specs.Prelude.{List};
    ghost use Rattle.gw_labels.specs.Selectors.{Requirement as Plain};

    ghost Value = { List Plain };

    ghost view = { λ s. s.needs.items };
}

// Written out, so that crates above don't prove anew how its parts are dropped.
impl Drop for Selector {
    fn drop(self) {
        let Selector { alloc: _, needs: _ } = self;
    }
}

impl Selector {
    /// Asks nothing, so that it accepts all labels.
    pub fn new(alloc: Global) -> Selector
        ensures { result ≡ [] }
    {
        Selector {
            alloc,
            needs: Vec::new(alloc),
        }
    }

    /// Adds a requirement at the end, whose values are the keys of `values`.
    pub fn need(&mut self, key: &str, op: Op, values: &Labels) -> Result<(), AllocError>
        ensures ok { OnOk result (self.new ≡ self.old ++ record { key = key.now; op = op; values = keys_of values.now } ∷ []) }
        ensures err { OnErr result (self.new ≡ self.old) }
    {
        let need = Requirement::new(self.alloc, key, op, values)?;
        self.needs.push(need)?;
        Ok(())
    }

    /// The selector of these requirements.
    pub fn of(alloc: Global, needs: Vec<Requirement>) -> Selector
        ensures { result ≡ needs.items }
    {
        Selector { alloc, needs }
    }
}

/// Whether all requirements of the selector hold for the labels.
pub fn accepts(s: &Selector, l: &Labels) -> bool
    ensures { result ≡ selects s.now l.now }
{
    s.needs.iter().all(|need| need.is_met(l))
}
