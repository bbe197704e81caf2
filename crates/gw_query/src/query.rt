//! The query of a request.
ghost use Rattle.std.specs.Prelude.{◌≡◌, Some, IfOk};
ghost use Rattle.gw_query.specs.Sorted.{AreSorted};
ghost use Rattle.gw_query.specs.model.Parameters as rules;

use crate::sorted::{Decoded, sorted_of};
use gw_text::{NoMemory, Text};
use std::alloc::Global;
use std::marker::Model;

/// The query of a request: its text, and its parameters in the order of their names, which are cut and decoded once for all rows.
pub struct Query {
    text: Text,
    sorted: Vec<Decoded>,
}

// Written out, so that crates above don't prove anew how its parts are dropped.
impl Drop for Query {
    fn drop(self) {
        let Query { text: _, sorted: _ } = self;
    }
}

impl Model for Query {
    ghost use Rattle.std.specs.Prelude.{List, ℕ, Some};
    ghost use Rattle.gw_query.specs.Sorted.{AreSorted};
    ghost use Rattle.gw_query.specs.model.Parameters.{parameters_of};

    ghost Value = { List ℕ };

    ghost view = { λ q. q.text };

    ghost invariant = { λ q. AreSorted q.sorted.items (parameters_of (Some q.text)) };
}

impl Query {
    /// The query that has this text.
    pub fn of(alloc: Global, text: &str) -> Result<Self, NoMemory>
        ensures { IfOk result (λ query. query ≡ text.now) }
    {
        let text = Text::of(alloc, text)?;
        let sorted = sorted_of(alloc, text.bytes())?;
        Ok(Query { text, sorted })
    }

    /// Its text.
    pub fn bytes(&self) -> &[u8]
        ensures { result.now ≡ self.now }
    {
        self.text.bytes()
    }

    /// Its parameters in the order of their names.
    pub(crate) fn sorted(&self) -> &[Decoded]
        ensures { AreSorted result.now (rules.parameters_of (Some self.now)) }
    {
        self.sorted.as_slice()
    }
}
