ghost use Rattle.std.specs.Prelude.{◌≡◌};

/// Why an exchange with a backend gave no response. The first three are the call that failed, the others what its bytes are.
#[derive(Clone, Copy, Debug, PartialEq, Eq)]
pub enum BackendFault {
    Open,
    Send,
    Receive,
    /// The head isn't one of a response, is that of 101, is above 16,384 bytes or 100 fields, or is that of a 17th interim response.
    Head,
    /// The body's length can't be told, or its chunks or trailers are malformed or too long.
    Body,
    /// The body is above 8,388,608 bytes, or more than 67,108,864 bytes came.
    TooBig,
    /// The bytes ended inside the response.
    Cut,
}

/// Why a request got 500, 502 or 503: what the reply's field `x-gateward-fault` says.
#[derive(Clone, Copy, Debug, PartialEq, Eq)]
pub enum FaultName {
    /// The rule has no backend, or none of a weight above 0.
    NoBackend,
    InvalidKind,
    RefNotPermitted,
    BackendNotFound,
    UnsupportedProtocol,
    NoEndpoints,
    Backend(BackendFault),
}

impl BackendFault {
    ghost use Rattle.gw_replies.specs.model.Written.{backend_fault_text};

    /// Its name.
    pub fn as_str(self) -> &'static str
        ensures { result.now ≡ backend_fault_text self }
    {
        match self {
            BackendFault::Open => "Open",
            BackendFault::Send => "Send",
            BackendFault::Receive => "Receive",
            BackendFault::Head => "Head",
            BackendFault::Body => "Body",
            BackendFault::TooBig => "TooBig",
            BackendFault::Cut => "Cut",
        }
    }
}

impl FaultName {
    ghost use Rattle.gw_replies.specs.model.Written.{fault_text};

    /// Its name, or that of the backend's fault.
    pub fn as_str(self) -> &'static str
        ensures { result.now ≡ fault_text self }
    {
        match self {
            FaultName::NoBackend => "NoBackend",
            FaultName::InvalidKind => "InvalidKind",
            FaultName::RefNotPermitted => "RefNotPermitted",
            FaultName::BackendNotFound => "BackendNotFound",
            FaultName::UnsupportedProtocol => "UnsupportedProtocol",
            FaultName::NoEndpoints => "NoEndpoints",
            FaultName::Backend(fault) => fault.as_str(),
        }
    }
}
