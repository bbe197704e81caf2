//! The keys of the objects of each kind.
use crate::table::Keyed;
use gw_objects::{EndpointSlice, Gateway, GatewayClass, Namespace, ReferenceGrant, Service};
use gw_route::HttpRoute;
use gw_text::Key;

impl Keyed for GatewayClass {
    ghost use Rattle.gw_text.specs.model.World.{class_key};

    ghost key = { class_key };

    fn key(&self) -> &Key {
        self.meta.key.formed()
    }
}

impl Keyed for Gateway {
    ghost use Rattle.gw_text.specs.model.World.{gateway_key};

    ghost key = { gateway_key };

    fn key(&self) -> &Key {
        self.meta.key.formed()
    }
}

impl Keyed for HttpRoute {
    ghost use Rattle.gw_text.specs.model.World.{route_key};

    ghost key = { route_key };

    fn key(&self) -> &Key {
        self.meta.key.formed()
    }
}

impl Keyed for ReferenceGrant {
    ghost use Rattle.gw_text.specs.model.World.{grant_key};

    ghost key = { grant_key };

    fn key(&self) -> &Key {
        self.meta.key.formed()
    }
}

impl Keyed for Namespace {
    ghost use Rattle.gw_text.specs.model.World.{namespace_key};

    ghost key = { namespace_key };

    fn key(&self) -> &Key {
        self.meta.key.formed()
    }
}

impl Keyed for Service {
    ghost use Rattle.gw_text.specs.model.World.{service_key};

    ghost key = { service_key };

    fn key(&self) -> &Key {
        self.meta.key.formed()
    }
}

impl Keyed for EndpointSlice {
    ghost use Rattle.gw_text.specs.model.World.{slice_key};

    ghost key = { slice_key };

    fn key(&self) -> &Key {
        self.meta.key.formed()
    }
}
