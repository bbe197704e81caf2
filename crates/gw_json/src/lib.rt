//! JSON as the readers of Kubernetes objects see it: a line becomes a value, the value's fields are
//! read one after another, each with its path, and the first that is not as it must be gives the
//! refusal. Values are printed as lines here too.
#![tactic(auto)]

mod cursor;
mod form;
mod line;
mod member;
mod path;
mod presence;
mod put;
mod refusal;

pub use cursor::Cursor;
pub use form::{Form, Number16, Number32, Number64, Port, TextForm, Truth};
pub use line::{MAX_LINE, push_line, read_value};
pub use member::{Member, Node};
pub use path::Path;
pub use put::{put_number, put_text};
pub use refusal::Refusal;
