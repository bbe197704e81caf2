ghost use Rattle.std.specs.Prelude.{◌≡◌};

use crate::plan::Plan;
use gw_route::Match;
use gw_text::{Host, Key, Second, Text};
use std::marker::Model;
use std::sync::Arc;

/// A listener at which requests are taken.
pub struct ServedListener {
    /// Its place in its Gateway's list.
    pub number: u32,
    pub name: Text,
    pub hostname: Option<Host>,
    pub port: u16,
}

impl Model for ServedListener {
    ghost use Rattle.gw_rows.specs.model.Rows.{ServedListener as Plain};

    ghost Value = { Plain };

    ghost view = { λ l. record { number = l.number; name = l.name; hostname = l.hostname; port = l.port } };
}

// Written out, so that crates above don't prove anew how its parts are dropped.
impl Drop for ServedListener {
    fn drop(self) {
        let ServedListener {
            number: _,
            name: _,
            hostname: _,
            port: _,
        } = self;
    }
}

/// One match of one rule of a Route, for one of its hostnames, at a listener to which the Route is attached.
pub struct Row {
    /// The listener's number.
    pub listener: u32,
    /// The listener's name.
    pub name: Text,
    pub listener_host: Option<Host>,
    /// The listener's port.
    pub port: u16,
    /// One of the Route's hostnames; none where it has none.
    pub hostname: Option<Host>,
    /// Its place among the Route's hostnames.
    pub host_place: u32,
    /// The Route's.
    pub key: Key,
    pub created: Second,
    /// The rule's place in the Route.
    pub rule: u32,
    /// The match's place in the rule.
    pub place: u32,
    pub test: Match,
    /// What the rule does; all rows of the rule share it.
    pub plan: Arc<Plan>,
}

impl Model for Row {
    ghost use Rattle.gw_rows.specs.model.Rows.{Row as Plain};

    ghost Value = { Plain };

    ghost view = { λ r. record {
      listener = r.listener;
      name = r.name;
      listener_host = r.listener_host;
      port = r.port;
      hostname = r.hostname;
      host_place = r.host_place;
      key = r.key;
      created = r.created;
      rule = r.rule;
      place = r.place;
      test = r.test;
      plan = r.plan.value;
    } };
}

// Written out, so that crates above don't prove anew how its parts are dropped.
impl Drop for Row {
    fn drop(self) {
        let Row {
            listener: _,
            name: _,
            listener_host: _,
            port: _,
            hostname: _,
            host_place: _,
            key: _,
            created: _,
            rule: _,
            place: _,
            test: _,
            plan: _,
        } = self;
    }
}

/// The served listeners of a door, and their rows.
#[derive(Drop)]
pub struct Rows {
    listeners: Vec<ServedListener>,
    rows: Vec<Row>,
}

impl Model for Rows {
    ghost use Rattle.gw_rows.specs.model.Rows.{Rows as Plain};

    ghost Value = { Plain };

    ghost view = { λ r. record { listeners = r.listeners.items; rows = r.rows.items } };
}

impl Rows {
    /// These listeners and rows.
    pub fn new(listeners: Vec<ServedListener>, rows: Vec<Row>) -> Self
        ensures { result ≡ record { listeners = listeners.items; rows = rows.items } }
    {
        Rows { listeners, rows }
    }

    /// The served listeners, those without a row among them.
    pub fn listeners(&self) -> &[ServedListener]
        ensures { result.now ≡ self.now.listeners }
    {
        self.listeners.as_slice()
    }

    /// The rows.
    pub fn rows(&self) -> &[Row]
        ensures { result.now ≡ self.now.rows }
    {
        self.rows.as_slice()
    }

    /// The served listeners, and the rows.
    pub fn into_parts(self) -> (Vec<ServedListener>, Vec<Row>)
        ensures listeners { result.0.items ≡ self.listeners }
        ensures rows { result.1.items ≡ self.rows }
    {
        (self.listeners, self.rows)
    }
}
