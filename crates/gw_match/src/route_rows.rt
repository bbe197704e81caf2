ghost use Rattle.std.specs.Prelude.{◌≡◌, IfOk};

use crate::handles::shared_all;
use gw_rows::Row;
use gw_shared::Shared;
use gw_text::NoMemory;
use std::alloc::Global;
use std::marker::Model;

/// The rows of one Route at a listener, by hostname, rule and match.
#[derive(Drop)]
pub struct RouteRows {
    rows: Vec<Shared<Row>>,
}

impl Model for RouteRows {
    ghost use Rattle.std.specs.Prelude.{List};
    ghost use Rattle.gw_rows.specs.model.Rows.{Row as Plain};

    ghost Value = { List Plain };

    ghost view = { λ r. r.rows.items };
}

impl RouteRows {
    /// These rows.
    pub fn new(rows: Vec<Shared<Row>>) -> Self
        ensures { result ≡ rows.items }
    {
        RouteRows { rows }
    }

    /// These rows, each behind a handle.
    pub fn of(alloc: Global, rows: Vec<Row>) -> Result<Self, NoMemory>
        ensures { IfOk result (λ r. r ≡ rows.items) }
    {
        Ok(RouteRows {
            rows: shared_all(alloc, rows)?,
        })
    }

    /// A handle on each of them.
    pub fn as_slice(&self) -> &[Shared<Row>]
        ensures { result.now ≡ self.now }
    {
        self.rows.as_slice()
    }
}
