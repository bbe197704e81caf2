// Parts of messages that requests and responses share: sections that end with an empty line, fields, and bodies.
#![tactic(auto)]

pub mod body;
pub mod buffer;
pub mod bytes;
pub mod chunk;
pub mod coding;
pub mod element;
pub mod fault;
pub mod field;
pub mod line;
pub mod number;
pub mod section;
pub mod spans;
