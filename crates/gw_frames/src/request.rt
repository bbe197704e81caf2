use gw_query::Query;
use gw_text::{Fields, Text};
use std::marker::Model;

/// A request. Its texts are any bytes.
#[derive(Drop)]
pub struct Request {
    pub method: Text,
    /// As it was sent.
    pub target: Text,
    /// The target's path, in which an empty one is `/`.
    pub path: Text,
    /// The authority of an absolute target, else the value of Host.
    pub authority: Text,
    /// The authority without its port, in lower case.
    pub host: Text,
    pub query: Option<Query>,
    pub minor: u8,
    pub fields: Fields,
    pub body: Text,
    /// Whether a body was announced.
    pub framed: bool,
    /// Whether the connection ends with this request.
    pub close: bool,
}

impl Model for Request {
    ghost use Rattle.gw_frames.specs.model.Requests.{Request as Plain};

    ghost Value = { Plain };

    ghost view = { λ r. record {
      method = r.method;
      target = r.target;
      path = r.path;
      authority = r.authority;
      host = r.host;
      query = r.query;
      minor = r.minor;
      fields = r.fields;
      body = r.body;
      framed = r.framed;
      close = r.close;
    } };
}
