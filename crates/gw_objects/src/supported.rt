//! Which kinds of Routes a listener supports.
ghost use Rattle.std.specs.Prelude.{◌≡◌};
ghost use Rattle.std.specs.List.{list_any};
ghost use Rattle.gw_text.specs.model.Listeners as rules;

use crate::gateway::Listener;
use crate::routes::RouteKind;
use gw_text::{GATEWAY_GROUP, Protocol};

impl RouteKind {
    /// Whether it is HTTPRoute of the Gateway API.
    #[tactic(auto, unfolding(gw_text::specs::model::Kinds::gateway_group))]
    pub fn is_http_route(&self) -> bool
        ensures { result ≡ rules.is_http_route self.now }
    {
        self.group.bytes() == GATEWAY_GROUP.as_bytes()
            && self.kind.bytes() == b"HTTPRoute".as_slice()
    }
}

fn names_http_route(kinds: &[RouteKind]) -> bool
    ensures { result ≡ list_any rules.is_http_route kinds.now }
{
    kinds.iter().any(|kind| kind.is_http_route())
}

impl Listener {
    /// Whether its protocol is HTTP, the one that is served.
    pub fn is_http(&self) -> bool
        ensures { result ≡ rules.is_http self.now }
    {
        match &self.protocol {
            Protocol::Http => true,
            Protocol::Https | Protocol::Tls | Protocol::Tcp | Protocol::Other(_) => false,
        }
    }

    /// Whether HTTPRoute is a supported kind of the listener.
    #[tactic(auto, unfolding(gw_text::specs::model::Listeners::supports_http_route))]
    pub fn supports_http_route(&self) -> bool
        ensures { result ≡ rules.supports_http_route self.now }
    {
        let kinds = self.allowed_routes.kinds.as_slice();
        self.is_http() && (kinds.is_empty() || names_http_route(kinds))
    }
}
