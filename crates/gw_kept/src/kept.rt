use gw_eval::KeptRoute;
use gw_status::GatewayStatus;
use gw_text::Key;

/// Something that is kept under a key.
pub trait Kept {
    ghost use Rattle.std.specs.Prelude.{◌≡◌, IsTrue};
    ghost use Rattle.gw_text.specs.model.Forms.{is_key};
    ghost use Rattle.gw_text.specs.model.Names.{Key as Plain};

    /// The key.
    ghost key_of: { Self → Plain };

    fn key(&self) -> &Key
        ensures value { result.now ≡ key_of self.now }
        ensures form { IsTrue (is_key (key_of self.now)) };
}

impl Kept for KeptRoute {
    ghost use Rattle.gw_kept.specs.Held.{kept_route_key};

    ghost key_of = { kept_route_key };

    fn key(&self) -> &Key {
        self.route.meta.key.formed()
    }
}

impl Kept for GatewayStatus {
    ghost use Rattle.gw_kept.specs.Held.{gateway_status_key};

    ghost key_of = { gateway_status_key };

    fn key(&self) -> &Key {
        self.key.formed()
    }
}
