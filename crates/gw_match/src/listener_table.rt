ghost use Rattle.std.specs.Prelude.{◌≡◌, ◌+◌, ◌<◌, ◌≤◌, ◌++◌, [], IfOk, OnOk, filter, length, option_copied, slice_get, slice_index_or};
ghost use Rattle.gw_cells.specs.model.Probes.{most_probes};
ghost use Rattle.gw_match.specs.model.Listed as rules;
ghost use Rattle.gw_rows.specs.model.Fitting.{fits};
ghost use Rattle.gw_rows.specs.model.Precedence.{precedence};
ghost use Rattle.gw_rows.specs.model.Rows.{foremost};

use crate::changing::{cells_of, change_cells};
use crate::handles::push_all;
use crate::route_rows::RouteRows;
use gw_cells::Cells;
use gw_frames::Request;
use gw_rows::{Row, ServedListener};
use gw_shared::{Shared, SharedList};
use gw_text::{NoMemory, Steps};
use std::alloc::Global;
use std::marker::Model;
use std::sync::ledger::Ledger;

/// The rows of a listener, Route by Route, and in cells in which the one that serves a request is found. What is changed shares with its
/// copies all but what the change touches.
pub struct ListenerTable {
    listener: Shared<ServedListener>,
    routes: SharedList<RouteRows>,
    cells: Cells,
}

impl Model for ListenerTable {
    ghost use Rattle.gw_cells.specs.Held.{AreCellsOf};
    ghost use Rattle.gw_match.specs.model.Listed.{AreRowsOf, Listed, rows_in};

    ghost Value = { Listed };

    ghost view = { λ t. record { listener = t.listener; routes = t.routes } };

    ghost invariant = { λ t. AreRowsOf t.listener (rows_in t.routes) × AreCellsOf (rows_in t.routes) t.cells };
}

// Written out, so that crates above don't prove anew how its parts are dropped.
impl Drop for ListenerTable {
    fn drop(self) {
        let ListenerTable {
            listener: _,
            routes: _,
            cells: _,
        } = self;
    }
}

// A handle on each row of the Route of this place.
fn rows_at(routes: &SharedList<RouteRows>, at: usize) -> &[Shared<Row>]
    ensures { result.now ≡ slice_index_or routes.now at [] }
{
    match routes.get(at) {
        Some(rows) => rows.as_slice(),
        None => &[],
    }
}

impl ListenerTable {
    /// That of a listener, with no Routes.
    pub fn new(alloc: Global, listener: Shared<ServedListener>) -> Self
        ensures { result ≡ record { listener = listener; routes = [] } }
    {
        ListenerTable {
            listener,
            routes: SharedList::new(alloc),
            cells: Cells::new(alloc),
        }
    }

    /// That of a listener, with these rows of each Route.
    pub fn of(
        alloc: Global,
        listener: Shared<ServedListener>,
        routes: Vec<Shared<RouteRows>>,
    ) -> Result<Self, NoMemory>
        requires { rules.AreRowsOf listener (rules.rows_in routes.items) }
        ensures { IfOk result (λ t. t ≡ record { listener = listener; routes = routes.items }) }
    {
        let cells = cells_of(alloc, routes.as_slice())?;
        let routes = SharedList::from_vec(alloc, routes)?;
        Ok(ListenerTable {
            listener,
            routes,
            cells,
        })
    }

    /// The listener.
    pub fn listener(&self) -> &ServedListener
        ensures { result.now ≡ self.now.listener }
    {
        &self.listener
    }

    /// How many Routes have a place in it.
    pub fn len(&self) -> usize
        ensures { result ≡ length self.now.routes }
    {
        self.routes.len()
    }

    /// The rows of the Route of this place.
    pub fn rows_of(&self, at: usize) -> Option<&RouteRows>
        ensures { option_copied result ≡ slice_get self.now.routes at }
    {
        self.routes.get(at)
    }

    /// A copy, which shares all.
    pub fn copy(&self, alloc: Global) -> Result<Self, NoMemory>
        ensures { IfOk result (λ copy. copy ≡ self.now) }
    {
        Ok(ListenerTable {
            listener: self.listener.share()?,
            routes: self.routes.share(alloc)?,
            cells: self.cells.share(alloc)?,
        })
    }

    /// The table in which the Route of this place has these rows.
    pub fn with_put(self, alloc: Global, at: usize, rows: RouteRows) -> Result<Self, NoMemory>
        requires within { at < length self.routes }
        requires rows { rules.AreRowsOf self.listener (rules.rows_in (rules.with_put at rows self.routes)) }
        ensures { IfOk result (λ t. t ≡ record self { routes = rules.with_put at rows self.routes }) }
    {
        let ListenerTable {
            listener,
            mut routes,
            mut cells,
        } = self;
        change_cells(alloc, &mut cells, rows_at(&routes, at), rows.as_slice())?;
        routes.put(alloc, at, Shared::new(alloc, rows)?)?;
        Ok(ListenerTable {
            listener,
            routes,
            cells,
        })
    }

    /// The table with one Route more, before the one of this place or at the end.
    pub fn with_inserted(self, alloc: Global, at: usize, rows: RouteRows) -> Result<Self, NoMemory>
        requires within { at ≤ length self.routes }
        requires rows { rules.AreRowsOf self.listener (rules.rows_in (rules.with_inserted at rows self.routes)) }
        ensures { IfOk result (λ t. t ≡ record self { routes = rules.with_inserted at rows self.routes }) }
    {
        let ListenerTable {
            listener,
            mut routes,
            mut cells,
        } = self;
        change_cells(alloc, &mut cells, &[], rows.as_slice())?;
        routes.insert(alloc, at, Shared::new(alloc, rows)?)?;
        Ok(ListenerTable {
            listener,
            routes,
            cells,
        })
    }

    /// The table without the Route of this place.
    pub fn without(self, alloc: Global, at: usize) -> Result<Self, NoMemory>
        requires { at < length self.routes }
        ensures { IfOk result (λ t. t ≡ record self { routes = rules.without at self.routes }) }
    {
        let ListenerTable {
            listener,
            mut routes,
            mut cells,
        } = self;
        change_cells(alloc, &mut cells, rows_at(&routes, at), &[])?;
        routes.remove(alloc, at)?;
        Ok(ListenerTable {
            listener,
            routes,
            cells,
        })
    }

    /// Of all its rows that fit, the one that precedence puts first. A step is one probe.
    pub fn find<L: Ledger>(&self, request: &Request, steps: &mut Steps<L>) -> Option<&Row>
        ensures row { option_copied result ≡ foremost precedence (filter (λ r. fits r request.now) (rules.rows_in self.now.routes)) }
        ensures steps { steps.new ≤ steps.old + most_probes request.now }
        ensures later { steps.old ≤ steps.new }
    {
        self.cells.find(request, steps)
    }

    /// Puts a handle on each of its rows at the end.
    pub(crate) fn push_rows(&self, all: &mut Vec<Shared<Row>>) -> Result<(), NoMemory>
        ensures { OnOk result (all.new.items ≡ all.old.items ++ rules.rows_in self.now.routes) }
    {
        'routes: for at in 0..self.len() {
            push_all(all, rows_at(&self.routes, at))?;
        }
        Ok(())
    }
}
