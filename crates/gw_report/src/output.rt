use gw_text::Text;

/// What an input gives.
#[derive(Drop)]
pub struct Output {
    /// What is printed.
    pub text: Text,
    /// Whether a line was refused.
    pub refused: bool,
}
