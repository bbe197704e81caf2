/// How a connection ended.
#[derive(Clone, Copy, Debug, PartialEq, Eq)]
pub enum Ended {
    /// The bytes ended between requests.
    Closed,
    /// The bytes ended inside a request.
    Truncated,
    /// The last request asked for it.
    Asked,
    /// The last request was the 1,000th.
    Enough,
    /// A request was refused with this code.
    Refused(u16),
}
