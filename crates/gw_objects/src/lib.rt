//! Kubernetes objects, read from JSON: each kind gives its value, or the refusal of its first field that isn't as it
//! must be.
#![tactic(auto)]

mod class;
mod fields;
mod gateway;
mod grant;
mod labels;
mod meta;
mod namespace;
mod routes;
mod selector;
mod service;
mod slice;
mod supported;

pub use class::{GatewayClass, read_class};
pub use gateway::{Address, Gateway, Listener, read_gateway};
pub use grant::{GrantFrom, GrantTo, ReferenceGrant, read_grant};
pub use meta::{read_key, read_meta};
pub use namespace::{Namespace, labels_by_name, read_namespace};
pub use routes::{AllowedRoutes, RouteKind};
pub use service::{Service, ServicePort, read_service};
pub use slice::{Endpoint, EndpointPort, EndpointSlice, read_slice};
