//! Keys of the Routes and Gateways that a change touches.
ghost use Rattle.std.specs.Prelude.{◌≡◌, []};

use crate::key::SharedKey;
use crate::sorted::Sorted;
use std::alloc::Global;
use std::marker::Model;

/// Keys, each once.
pub type Keys = Sorted<SharedKey>;

/// The keys of Routes and of Gateways.
#[derive(Drop)]
pub struct Touched {
    pub routes: Keys,
    pub gateways: Keys,
}

impl Model for Touched {
    ghost use Rattle.gw_deps.specs.Touching.{Touched as Plain};

    ghost Value = { Plain };

    ghost view = { λ t. record { routes = t.routes.list; gateways = t.gateways.list } };
}

impl Touched {
    /// None.
    pub(crate) fn nothing(alloc: Global) -> Self
        ensures routes { result.routes ≡ [] }
        ensures gateways { result.gateways ≡ [] }
    {
        Touched {
            routes: Sorted::new(alloc),
            gateways: Sorted::new(alloc),
        }
    }
}
