ghost use Rattle.std.specs.Prelude.{◌≡◌, ◌<◌, length, map};
ghost use Rattle.std.specs.Arc.{arc_value};

use crate::table::DoorTable;
use gw_snap::Told;
use gw_store::Entry;
use gw_text::{Doors, Text};
use std::marker::Model;
use std::sync::Arc;

/// A table for each door, in the order of the doors, as they are after so many changes.
pub struct Tables {
    number: u64,
    doors: Arc<Doors>,
    controller: Arc<Text>,
    tables: Vec<Arc<DoorTable>>,
}

impl Model for Tables {
    ghost use Rattle.std.specs.Prelude.{◌≡◌, length, map};
    ghost use Rattle.std.specs.Arc.{arc_value};
    ghost use Rattle.gw_match.specs.model.Telling.{Tables as Plain};

    ghost Value = { Plain };

    ghost view = { λ t. record {
      number = t.number;
      doors = arc_value t.doors;
      controller = arc_value t.controller;
      tables = map arc_value t.tables.items;
    } };

    ghost invariant = { λ t. length t.tables.items ≡ length (arc_value t.doors) };
}

// Written out, so that crates above don't prove anew how its parts are dropped.
impl Drop for Tables {
    fn drop(self) {
        let Tables {
            number: _,
            doors: _,
            controller: _,
            tables: _,
        } = self;
    }
}

impl Told for Tables {
    ghost use Rattle.std.specs.Prelude.{[]};
    ghost use Rattle.gw_match.specs.model.Telling.{Stands};

    type Change = Entry;

    type Fixed = (Doors, Text);

    ghost tells = { λ t list. Stands t list };

    ghost fixed = { λ t. (t.doors, t.controller) };

    ghost blank = { ([], []) };
}

impl Tables {
    ghost use Rattle.std.specs.Prelude.{get_or};
    ghost use Rattle.gw_rows.specs.model.Rows.{Rows};

    /// These tables, one for each door.
    pub fn new(
        number: u64,
        doors: Arc<Doors>,
        controller: Arc<Text>,
        tables: Vec<Arc<DoorTable>>,
    ) -> Tables
        requires { length tables.items ≡ length (arc_value doors) }
        ensures { result ≡ record { number = number; doors = arc_value doors; controller = arc_value controller; tables = map arc_value tables.items } }
    {
        Tables {
            number,
            doors,
            controller,
            tables,
        }
    }

    /// How many doors there are.
    pub fn doors(&self) -> usize
        ensures { result ≡ length self.now.doors }
    {
        self.tables.len()
    }

    /// The table of a door, by its number.
    pub fn table(&self, door: usize) -> &DoorTable
        requires { door < length self.now.doors }
        ensures { (r : Rows) → result.now ≡ get_or self.now.tables door r }
    {
        &self.tables[door]
    }

    /// How many changes led here.
    pub fn number(&self) -> u64
        ensures { result ≡ self.now.number }
    {
        self.number
    }
}
