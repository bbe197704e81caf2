use gw_replies::BackendFault;

/// Why an exchange gave no response.
#[derive(Clone, Copy, Debug, PartialEq, Eq)]
pub enum ExchangeFault {
    /// The call that failed, or what the bytes are.
    Backend(BackendFault),
    NoMemory,
}
