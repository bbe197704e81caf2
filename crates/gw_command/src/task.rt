use crate::words::GenerateWords;
use gw_frames::Request;
use gw_text::Socket;

/// What the program does: it writes of the objects that the lines of its input put, or serves.
#[derive(Drop)]
pub enum Task {
    /// Their statuses.
    Status,
    /// What becomes of a request at the door of this number.
    Explanation(usize, Request),
    /// What a script's connections are served, by so many workers. The last is whether the connections are polled.
    Replay(usize, bool),
    /// A script is written, or run.
    Generate(GenerateWords),
    /// The connections of all doors are served, by so many workers each, with jobs that end after so many accepts, or never; the objects
    /// come to the admin endpoint at this socket. The last is whether the connections are polled, many at once by each worker.
    Serve(usize, Option<u32>, Socket, bool),
}
