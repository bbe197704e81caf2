//! The resources of the admin endpoint, each at its path and with its one method.
ghost use Rattle.std.specs.Prelude.{◌≡◌, bytes_eq, find};
ghost use Rattle.gw_admin_texts.specs.model.Resources as resources;

use gw_frames::Request;

/// What can be asked for.
#[derive(Clone, Copy, Debug, PartialEq, Eq)]
pub enum Resource {
    /// Takes changes.
    Changes,
    /// The statuses of the objects that are held.
    Status,
    /// The rows of all doors.
    Table,
    /// What becomes of a request, and why.
    Explain,
    /// Whether the program is there.
    Health,
}

/// Where a request goes.
#[derive(Clone, Copy, Debug, PartialEq, Eq)]
pub enum Destination {
    Found(Resource),
    /// The resource is there, and has another method.
    NotAllowed(Resource),
    /// Nothing is at the path.
    Missing,
}

// All resources.
const RESOURCES: [Resource; 5] = [
    Resource::Changes,
    Resource::Status,
    Resource::Table,
    Resource::Explain,
    Resource::Health,
];

impl Resource {
    /// Its path.
    pub fn path(self) -> &'static str
        ensures { result.now ≡ resources.path_of self }
    {
        match self {
            Resource::Changes => "/changes",
            Resource::Status => "/status",
            Resource::Table => "/table",
            Resource::Explain => "/explain",
            Resource::Health => "/healthz",
        }
    }

    /// Its method.
    pub fn method(self) -> &'static str
        ensures { result.now ≡ resources.method_of self }
    {
        match self {
            Resource::Changes | Resource::Explain => "POST",
            Resource::Status | Resource::Table | Resource::Health => "GET",
        }
    }

    // Whether the request has its method.
    fn takes(self, request: &Request) -> bool
        ensures { result ≡ bytes_eq (resources.method_of self) request.now.method }
    {
        self.method().as_bytes() == request.method.bytes()
    }

    #[tactic(auto, unfolding(crate::specs::model::Resources::resource_at))]
    fn at(path: &[u8]) -> Option<Resource>
        ensures { result ≡ resources.resource_at path.now }
    {
        RESOURCES
            .iter()
            .copied()
            .find(|resource| resource.path().as_bytes() == path)
    }
}

impl Destination {
    /// Where the request goes. The query of its target plays no part.
    pub fn of(request: &Request) -> Destination
        ensures { result ≡ resources.destination_of request.now }
    {
        match Resource::at(request.path.bytes()) {
            Some(resource) if resource.takes(request) => Destination::Found(resource),
            Some(resource) => Destination::NotAllowed(resource),
            None => Destination::Missing,
        }
    }
}
