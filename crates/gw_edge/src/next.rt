/// What became of an acceptor's next link, of which a whole session gives an `S` and a broken one a `B`.
#[derive(Drop)]
pub enum Next<S, B> {
    /// No link is left.
    Done,
    /// `accept` failed; the acceptor's count of faults has risen.
    Failed,
    /// The link was served to its end.
    Whole(S),
    /// The link was given up.
    Broke(B),
}
