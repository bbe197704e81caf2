/// A call to the outside failed; its count of faults has risen.
#[derive(Clone, Copy, Debug, PartialEq, Eq)]
pub struct Failed;
