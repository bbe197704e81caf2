use gw_route::{BackendState, Edits, Filters};
use gw_text::{Key, List};
use std::marker::Model;

/// The backendRefs of a rule, in list order.
pub type Backends = List<Backend>;

/// The rules of a Route, in list order.
pub type Plans = List<Plan>;

/// A backendRef, and what becomes of it.
#[derive(Drop)]
pub struct Backend {
    /// Its share of the rule's requests, 0 to 1,000,000.
    pub weight: u32,
    /// What it names.
    pub key: Key,
    /// The port of the Service; 0 where it names no Service and no port.
    pub port: u16,
    pub state: BackendState,
    /// What is done to the fields of the requests that it gets, after the rule's edits.
    pub request: Edits,
    /// What is done to the fields of its responses, after the rule's edits.
    pub response: Edits,
}

impl Model for Backend {
    ghost use Rattle.gw_text.specs.model.Plans.{Backend as Plain};
    ghost use Rattle.gw_route.specs.States.{seen_state};

    ghost Value = { Plain };

    ghost view = { λ b. record { weight = b.weight; key = b.key; port = b.port; state = seen_state b.state; request = b.request; response = b.response } };
}

/// What a rule does with its requests.
pub struct Plan {
    pub filters: Filters,
    pub backends: Backends,
}

impl Model for Plan {
    ghost use Rattle.std.specs.Prelude.{map};
    ghost use Rattle.gw_text.specs.model.Plans.{Plan as Plain};
    ghost use Rattle.gw_route.specs.SeenFilter.{seen_filter};

    ghost Value = { Plain };

    ghost view = { λ p. record { filters = map seen_filter p.filters; backends = p.backends } };
}

// Written out, so that crates above don't prove anew how its parts are dropped.
impl Drop for Plan {
    fn drop(self) {
        let Plan {
            filters: _,
            backends: _,
        } = self;
    }
}
