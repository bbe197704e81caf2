ghost use Rattle.std.specs.Prelude.{◌≡◌};

use crate::chosen::{BackendKey, Chosen};
use gw_replies::FaultName;
use gw_text::{Key, Socket, Text};
use std::marker::Model;

/// What is kept of a request that was served. Bodies aren't.
#[derive(Drop)]
pub struct ServedRow {
    /// By how many changes the request was decided.
    pub front: u64,
    /// The reply's code.
    pub status: u16,
    /// The listener's name.
    pub listener: Option<Text>,
    pub route: Option<Key>,
    /// The rule's place in the Route, and 0 where there is none.
    pub rule: u32,
    /// The match's place in the rule, and 0 where there is none.
    pub place: u32,
    pub backend: Option<BackendKey>,
    pub endpoint: Option<Socket>,
    pub fault: Option<FaultName>,
}

impl Model for ServedRow {
    ghost use Rattle.gw_answers.specs.model.ServedRows.{ServedRow as Plain};

    ghost Value = { Plain };

    ghost view = { λ r. record {
      front = r.front;
      status = r.status;
      listener = r.listener;
      route = r.route;
      rule = r.rule;
      place = r.place;
      backend = r.backend;
      endpoint = r.endpoint;
      fault = r.fault;
    } };
}

impl ServedRow {
    ghost use Rattle.gw_answers.specs.model.ServedRows.{served_row};

    /// The row of a request for which this was chosen.
    pub fn new(front: u64, chosen: Chosen, status: u16, fault: Option<FaultName>) -> Self
        ensures { result ≡ served_row front chosen status fault }
    {
        ServedRow {
            front,
            status,
            listener: chosen.listener,
            route: chosen.route,
            rule: chosen.rule,
            place: chosen.place,
            backend: chosen.backend,
            endpoint: chosen.endpoint,
            fault,
        }
    }
}
