//! The reply to a request for what becomes of another request, and why.
ghost use Rattle.std.specs.Prelude.{◌≡◌, length, IfOk};
ghost use Rattle.std.specs.Result.{result_ok};
ghost use Rattle.gw_json.specs.Words.{Gives};
ghost use Rattle.gw_json.specs.Fields.{node_of};
ghost use Rattle.gw_admin_texts.specs.model.Questions as questions;

use crate::reply::{Reply, Status};
use gw_decide::write_explain;
use gw_frames::Request;
use gw_json::{Cursor, MAX_LINE, Refusal, read_value};
use gw_match::Tables;
use gw_requests::{bytes_in, whole_request};
use gw_text::NoMemory;
use std::alloc::Global;
use std::marker::Model;

/// What is to be explained: a request at the door of this number, which may be any.
#[derive(Drop)]
pub struct Question {
    pub door: u64,
    pub request: Request,
}

impl Model for Question {
    ghost use Rattle.gw_admin_texts.specs.model.Questions.{Question as Plain};

    ghost Value = { Plain };

    ghost view = { λ q. record { door = q.door; request = q.request } };
}

// What a body asks, with the bytes of the request.
#[derive(Drop)]
struct Asking {
    door: u64,
    bytes: Vec<u8>,
}

impl Model for Asking {
    ghost use Rattle.gw_admin_texts.specs.model.Questions.{Asking as Plain};

    ghost Value = { Plain };

    ghost view = { λ a. record { door = a.door; bytes = a.bytes.items } };
}

impl Question {
    /// The question that a body is, if it is one.
    pub fn of(alloc: Global, body: &[u8]) -> Result<Option<Question>, NoMemory>
        ensures { IfOk result (questions.IsQuestionOf body.now) }
    {
        let Some(asking) = asked(alloc, body)? else {
            return Ok(None);
        };
        let Asking { door, bytes } = asking;
        match whole_request(alloc, bytes.as_slice())? {
            Some(request) => Ok(Some(Question { door, request })),
            None => Ok(None),
        }
    }
}

/// The reply to the question, by the tables after so many changes.
pub fn explanation_reply(
    alloc: Global,
    tables: &Tables,
    question: &Question,
    front: u64,
) -> Result<Reply, NoMemory>
    requires { length tables.now.tables ≡ length tables.now.doors }
    ensures { IfOk result (λ reply. reply ≡ questions.explanation_reply tables.now.tables question.now front) }
{
    let door = question.door as usize;
    if door >= tables.doors() {
        return Ok(Reply::empty(alloc, Status::BadRequest));
    }
    let text = write_explain(alloc, tables.table(door), &question.request, front)?;
    Ok(Reply::of(Status::Ok, text))
}

// What the body asks, if it does.
fn asked(alloc: Global, body: &[u8]) -> Result<Option<Asking>, NoMemory>
    ensures { IfOk result (λ asking. asking ≡ result_ok (questions.asking_of body.now)) }
{
    match read_asking(alloc, body) {
        Ok(asking) => Ok(Some(asking)),
        Err(Refusal::NoMemory) => Err(NoMemory),
        Err(_) => Ok(None),
    }
}

#[tactic(auto, unfolding(crate::specs::model::Questions::asking_of))]
fn read_asking(alloc: Global, body: &[u8]) -> Result<Asking, Refusal>
    ensures { Gives (λ a. a) result (questions.asking_of body.now) }
{
    let value = read_value(alloc, body)?;
    let at = Cursor::root(alloc, &value)?;
    read_members(alloc, &at)
}

#[tactic(auto, unfolding(crate::specs::model::Questions::asking_at))]
fn read_members(alloc: Global, at: &Cursor<'_>) -> Result<Asking, Refusal>
    ensures { Gives (λ a. a) result (questions.asking_at (node_of at.now)) }
{
    two_members(alloc, at)?;
    let door = read_door(alloc, at)?;
    let bytes = read_bytes(alloc, at)?;
    Ok(Asking { door, bytes })
}

#[tactic(auto, unfolding(crate::specs::model::Questions::two_members))]
fn two_members(alloc: Global, at: &Cursor<'_>) -> Result<(), Refusal>
    ensures { Gives (λ u. u) result (questions.two_members (node_of at.now)) }
{
    if at.member_count(alloc)? == 2 {
        Ok(())
    } else {
        Err(at.bad_value(alloc)?)
    }
}

#[tactic(auto, unfolding(crate::specs::model::Questions::door_of))]
fn read_door(alloc: Global, at: &Cursor<'_>) -> Result<u64, Refusal>
    ensures { Gives (λ n. n) result (questions.door_of (node_of at.now)) }
{
    at.need(alloc, "at")?.number(alloc, 0, u64::MAX)
}

#[tactic(auto, unfolding(crate::specs::model::Questions::bytes_of))]
fn read_bytes(alloc: Global, at: &Cursor<'_>) -> Result<Vec<u8>, Refusal>
    ensures { Gives (λ v. v.items) result (questions.bytes_of (node_of at.now)) }
{
    let request = at.need(alloc, "request")?;
    match bytes_in(alloc, request.text_in(alloc, MAX_LINE)?)? {
        Some(bytes) => Ok(bytes),
        None => Err(request.bad_value(alloc)?),
    }
}
