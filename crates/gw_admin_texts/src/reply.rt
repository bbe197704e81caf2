//! A reply of the admin endpoint, and its bytes.
ghost use Rattle.std.specs.Prelude.{◌≡◌, [], None, IfOk};
ghost use Rattle.gw_admin_texts.specs.model.Replies as replies;

use crate::resource::Resource;
use gw_replies::{Response, phrase_of, write_reply};
use gw_text::{Field, Fields, NoMemory, Text};
use std::alloc::Global;
use std::marker::Model;

/// The status of a reply.
#[derive(Clone, Copy, Debug, PartialEq, Eq)]
pub enum Status {
    Ok,
    BadRequest,
    NotFound,
    MethodNotAllowed,
    UnprocessableContent,
    ServiceUnavailable,
}

/// A reply.
#[derive(Drop)]
pub struct Reply {
    pub status: Status,
    /// The resource whose method is the one that is allowed, where another one was asked for.
    pub allow: Option<Resource>,
    pub body: Text,
}

impl Model for Reply {
    ghost use Rattle.gw_admin_texts.specs.model.Replies.{Reply as Plain};

    ghost Value = { Plain };

    ghost view = { λ r. record { status = r.status; allow = r.allow; body = r.body } };
}

impl Status {
    /// Its code.
    pub fn code(self) -> u16
        ensures { result ≡ replies.code_of self }
    {
        match self {
            Status::Ok => 200,
            Status::BadRequest => 400,
            Status::NotFound => 404,
            Status::MethodNotAllowed => 405,
            Status::UnprocessableContent => 422,
            Status::ServiceUnavailable => 503,
        }
    }
}

impl Reply {
    /// A reply with this body.
    pub fn of(status: Status, body: Text) -> Reply
        ensures { result ≡ record { status = status; allow = None; body = body } }
    {
        Reply {
            status,
            allow: None,
            body,
        }
    }

    /// A reply without a body.
    pub fn empty(alloc: Global, status: Status) -> Reply
        ensures { result ≡ record { status = status; allow = None; body = [] } }
    {
        Reply::of(status, Text::from_vec(Vec::new(alloc)))
    }

    /// The reply to a request that asks a resource for another method than its own.
    pub fn not_allowed(alloc: Global, resource: Resource) -> Reply
        ensures { result ≡ replies.not_allowed resource }
    {
        Reply {
            status: Status::MethodNotAllowed,
            allow: Some(resource),
            body: Text::from_vec(Vec::new(alloc)),
        }
    }

    /// Its bytes. It is the last one of the connection where `close` is true.
    #[tactic(auto, using(crate::proofs::Writing::reply_is))]
    pub fn write(self, alloc: Global, close: bool) -> Result<Text, NoMemory>
        ensures { IfOk result (λ text. text ≡ replies.reply_text self close) }
    {
        let response = self.response(alloc)?;
        write_reply(alloc, &response, false, close)
    }

    fn response(self, alloc: Global) -> Result<Response, NoMemory>
        ensures { IfOk result (λ r. r ≡ replies.response_of self) }
    {
        let Reply {
            status,
            allow,
            body,
        } = self;
        Ok(Response {
            code: status.code(),
            phrase: Text::of(alloc, phrase_of(status.code()))?,
            fields: fields(alloc, allow)?,
            body,
            length: None,
        })
    }
}

// The field `allow` with the method of the resource, if one is given.
fn fields(alloc: Global, allow: Option<Resource>) -> Result<Fields, NoMemory>
    ensures { IfOk result (λ fields. fields ≡ replies.fields_of allow) }
{
    let mut fields = Fields::new(alloc);
    if let Some(resource) = allow {
        let name = Text::of(alloc, "allow")?;
        let value = Text::of(alloc, resource.method())?;
        fields.push(Field { name, value })?;
    }
    Ok(fields)
}
