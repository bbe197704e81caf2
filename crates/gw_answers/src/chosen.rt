ghost use Rattle.std.specs.Prelude.{◌≡◌, IfOk, Some, None};
ghost use Rattle.gw_answers.specs.model.Decisions as rules;

use gw_rows::{Backend, Row};
use gw_text::{Key, NoMemory, Socket, Text};
use std::alloc::Global;
use std::marker::Model;

/// A Service and a port of it.
#[derive(Drop)]
pub struct BackendKey {
    pub key: Key,
    /// 0 where none is given.
    pub port: u16,
}

impl Model for BackendKey {
    ghost use Rattle.gw_answers.specs.model.Decisions.{BackendKey as Plain};

    ghost Value = { Plain };

    ghost view = { λ b. record { key = b.key; port = b.port } };
}

impl BackendKey {
    /// That of a backend.
    pub(crate) fn of(alloc: Global, backend: &Backend) -> Result<Self, NoMemory>
        ensures { IfOk result (λ key. key ≡ record { key = backend.now.key; port = backend.now.port }) }
    {
        Ok(BackendKey {
            key: backend.key.copy(alloc)?,
            port: backend.port,
        })
    }
}

/// What was chosen for a request.
#[derive(Drop)]
pub struct Chosen {
    /// The listener's name.
    pub listener: Option<Text>,
    pub route: Option<Key>,
    /// The rule's place in the Route, and 0 where there is none.
    pub rule: u32,
    /// The match's place in the rule, and 0 where there is none.
    pub place: u32,
    pub backend: Option<BackendKey>,
    pub endpoint: Option<Socket>,
}

impl Model for Chosen {
    ghost use Rattle.gw_answers.specs.model.Decisions.{Chosen as Plain};

    ghost Value = { Plain };

    ghost view = { λ c. record {
      listener = c.listener;
      route = c.route;
      rule = c.rule;
      place = c.place;
      backend = c.backend;
      endpoint = c.endpoint;
    } };
}

impl Chosen {
    /// No Route.
    pub(crate) fn unrouted(listener: Option<Text>) -> Self
        ensures { result ≡ rules.unrouted listener }
    {
        Chosen {
            listener,
            route: None,
            rule: 0,
            place: 0,
            backend: None,
            endpoint: None,
        }
    }

    /// The row's Route, rule and match.
    pub(crate) fn routed(alloc: Global, listener: Option<Text>, row: &Row) -> Result<Self, NoMemory>
        ensures { IfOk result (λ chosen. chosen ≡ rules.routed listener row.now) }
    {
        Ok(Chosen {
            listener,
            route: Some(row.key.copy(alloc)?),
            rule: row.rule,
            place: row.place,
            backend: None,
            endpoint: None,
        })
    }

    /// With this backend.
    pub(crate) fn with_backend(self, backend: BackendKey) -> Self
        ensures { result ≡ record self { backend = Some backend } }
    {
        let mut chosen = self;
        chosen.backend = Some(backend);
        chosen
    }

    /// With this endpoint.
    pub(crate) fn with_endpoint(self, endpoint: Socket) -> Self
        ensures { result ≡ record self { endpoint = Some endpoint } }
    {
        let mut chosen = self;
        chosen.endpoint = Some(endpoint);
        chosen
    }
}
