use gw_text::Text;

/// How a script came to its end.
#[derive(Clone, Copy, Debug, PartialEq, Eq)]
pub enum Ending {
    /// All lines were done, and whether one of them was refused.
    Done(bool),
    /// There was no place to read from.
    Place,
    /// A worker had seen more than was published.
    Ahead,
}

/// What a script gives.
#[derive(Drop)]
pub struct Replayed {
    /// What is printed.
    pub text: Text,
    pub ending: Ending,
}
