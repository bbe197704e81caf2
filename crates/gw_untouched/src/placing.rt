ghost use Rattle.std.specs.Prelude.{◌≡◌};
ghost use Rattle.gw_store.specs.SeenEvents.{seen_event};
ghost use Rattle.gw_text.specs.model.Stored.{IsInKeyOrder};
ghost use Rattle.gw_untouched.specs.Untouched.{IsOrdered, IsOrderedFor, IsTableFor};

use gw_deps::find;
use gw_store::{Event, Keyed, World};
use gw_text::{Key, Kind, Stored};

// No other key ties with this one in the order of keys.
fn stands_in_order<T: Keyed + Drop>(stored: &[Stored<T>], key: &Key)
    requires { IsInKeyOrder T.key stored.now }
    ensures { IsTableFor T.key key.now stored.now }
{
    let _found = find(stored, key);
}

fn kind_stands_in_order(world: &World, kind: Kind, key: &Key)
    ensures { IsOrdered world.now.world kind key.now }
{
    match kind {
        Kind::GatewayClass => stands_in_order(world.classes(), key),
        Kind::Gateway => stands_in_order(world.gateways(), key),
        Kind::HttpRoute => stands_in_order(world.routes(), key),
        Kind::ReferenceGrant => stands_in_order(world.grants(), key),
        Kind::Namespace => stands_in_order(world.namespaces(), key),
        Kind::Service => stands_in_order(world.services(), key),
        Kind::EndpointSlice => stands_in_order(world.slices(), key),
    }
}

/// The objects of a world of the kind that an event changes stand in the order that the laws ask for.
pub fn objects_stand_in_order(world: &World, event: &Event)
    ensures { IsOrderedFor world.now.world (seen_event event.now) }
{
    match event {
        Event::Put(object) => kind_stands_in_order(world, object.kind(), object.key()),
        Event::Remove(kind, key) => kind_stands_in_order(world, *kind, key),
    }
}
