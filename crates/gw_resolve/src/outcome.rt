/// What comes of an event that isn't refused.
#[derive(Clone, Copy, Debug, PartialEq, Eq)]
pub enum Outcome {
    /// It is a change, which was taken.
    Accepted,
    /// It is no change.
    Skipped,
}
