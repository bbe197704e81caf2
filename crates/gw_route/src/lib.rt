//! HTTPRoutes as they are read from JSON: the fields in the order of the Gateway API's reference, each
//! with its default, and the first that is not as it must be gives the refusal.
#![tactic(auto)]

mod backend;
mod copies;
mod edits;
mod field_names;
mod filter;
mod matching;
mod parent;
mod plain;
mod reason;
mod route;
mod state;
mod support;

pub use copies::{copy_edits, copy_filters, copy_match};
pub use edits::{request_edits_in, response_edits_in};
pub use plain::{
    BackendRef, Edits, Filter, Filters, HeaderMatch, HttpRoute, Match, ParentRef, PathMatch,
    PathModifier, QueryParamMatch, Redirect, Rewrite, Rule,
};
pub use reason::RouteReason;
pub use route::read_route;
pub use state::BackendState;
pub use support::unsupported;
