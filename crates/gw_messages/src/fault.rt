/// Why a body isn't taken.
#[derive(Clone, Copy, Debug, PartialEq, Eq)]
pub enum BodyFault {
    /// A chunk that no bytes behind it make well-formed, or a chunk line above 1,024 bytes.
    Malformed,
    /// A trailer section above 16,384 bytes.
    LongTrailers,
    /// More bytes than a body may have.
    TooBig,
}
