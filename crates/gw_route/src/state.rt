use gw_text::Sockets;

/// What becomes of a backendRef.
#[derive(Drop)]
pub enum BackendState {
    /// It isn't to a Service, or that Service can't be a backend.
    InvalidKind,
    NotPermitted,
    /// There is no such Service, or it has no such port.
    NotFound,
    /// The port speaks a protocol that backends aren't spoken to in.
    BadProtocol,
    /// No endpoint is ready.
    NoEndpoints,
    /// The sockets of the endpoints that are ready: one or more, each once.
    Ready(Sockets),
}
