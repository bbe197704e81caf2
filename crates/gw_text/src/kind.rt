ghost use Rattle.std.specs.Prelude.{◌≡◌, ◌&&◌, bytes_eq, find};
ghost use Rattle.gw_text.specs.model.Kinds as kinds;

/// The group of the kinds of the Gateway API.
pub const GATEWAY_GROUP: &str = "gateway.networking.k8s.io";

/// The kinds of objects that are read.
#[derive(Clone, Copy, Debug, PartialEq, Eq)]
pub enum Kind {
    GatewayClass,
    Gateway,
    HttpRoute,
    ReferenceGrant,
    Namespace,
    Service,
    EndpointSlice,
}

// How objects of a kind are written: their `kind` and `apiVersion`, and whether they stand in a namespace.
#[derive(Clone, Copy)]
struct KindRow {
    name: &'static str,
    version: &'static str,
    is_namespaced: bool,
}

// All kinds, in the order in which objects are listed.
const KINDS: [Kind; 7] = [
    Kind::GatewayClass,
    Kind::Gateway,
    Kind::HttpRoute,
    Kind::ReferenceGrant,
    Kind::Namespace,
    Kind::Service,
    Kind::EndpointSlice,
];

fn written(name: &'static str, version: &'static str, is_namespaced: bool) -> KindRow
    ensures name { result.name.now ≡ name.now }
    ensures version { result.version.now ≡ version.now }
    ensures namespaced { result.is_namespaced ≡ is_namespaced }
{
    KindRow {
        name,
        version,
        is_namespaced,
    }
}

impl Kind {
    // The table of kinds.
    #[tactic(auto, unfolding(crate::specs::model::Kinds::row_of))]
    fn row(self) -> KindRow
        ensures name { result.name.now ≡ (kinds.row_of self).name }
        ensures version { result.version.now ≡ (kinds.row_of self).version }
        ensures namespaced { result.is_namespaced ≡ (kinds.row_of self).is_namespaced }
    {
        match self {
            Kind::GatewayClass => written("GatewayClass", "gateway.networking.k8s.io/v1", false),
            Kind::Gateway => written("Gateway", "gateway.networking.k8s.io/v1", true),
            Kind::HttpRoute => written("HTTPRoute", "gateway.networking.k8s.io/v1", true),
            Kind::ReferenceGrant => {
                written("ReferenceGrant", "gateway.networking.k8s.io/v1beta1", true)
            }
            Kind::Namespace => written("Namespace", "v1", false),
            Kind::Service => written("Service", "v1", true),
            Kind::EndpointSlice => written("EndpointSlice", "discovery.k8s.io/v1", true),
        }
    }

    /// The `kind` of its objects.
    pub fn name(self) -> &'static str
        ensures { result.now ≡ (kinds.row_of self).name }
    {
        self.row().name
    }

    /// Whether its objects stand in namespaces.
    pub fn is_namespaced(self) -> bool
        ensures { result ≡ (kinds.row_of self).is_namespaced }
    {
        self.row().is_namespaced
    }

    /// The kind of objects with this `apiVersion` and `kind`, if they are read.
    #[tactic(auto, unfolding(crate::specs::model::Kinds::kind_of))]
    pub fn of(version: &str, name: &str) -> Option<Kind>
        ensures { result ≡ kinds.kind_of version.now name.now }
    {
        KINDS
            .iter()
            .copied()
            .find(|kind| kind.is_written(version, name))
    }

    /// The kind of this name, if its objects are read.
    #[tactic(auto, unfolding(crate::specs::model::Kinds::kind_named))]
    pub fn named(name: &str) -> Option<Kind>
        ensures { result ≡ kinds.kind_named name.now }
    {
        KINDS.iter().copied().find(|kind| kind.name() == name)
    }

    fn is_written(self, version: &str, name: &str) -> bool
        ensures { result ≡ kinds.is_written version.now name.now self }
    {
        let row = self.row();
        row.name == name && row.version == version
    }
}
