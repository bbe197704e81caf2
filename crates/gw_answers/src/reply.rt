ghost use Rattle.std.specs.Prelude.{◌≡◌, ◌++◌, IfOk, option_copied, option_to_list};
ghost use Rattle.gw_replies.specs.model.Hops.{passed_back};
ghost use Rattle.gw_replies.specs.model.Written.{reply};
ghost use Rattle.gw_answers.specs.model.Messages as rules;
ghost use Rattle.gw_answers.specs.model.ServedRows as rows;

use crate::edits::{ResponseEdits, edit_by};
use gw_frames::Request;
use gw_replies::{
    BackendFault, FaultName, Response, passed_back, write_own, write_reply, write_unedited_reply,
};
use gw_route::Edits;
use gw_text::{NoMemory, Text};
use std::alloc::Global;

/// The code of a reply where the backend gave no response.
const BAD_GATEWAY: u16 = 502;

/// Whether the request's method is HEAD.
pub fn is_head(request: &Request) -> bool
    ensures { result ≡ rules.is_head request.now }
{
    request.method.bytes() == b"HEAD".as_slice()
}

/// The bytes of the reply for what a backend answered to a request, which was HEAD where `head` is true, and is the last one of the
/// connection where `close` is true.
#[tactic(auto, unfolding(crate::specs::model::Messages::reply_of))]
pub fn write_answer(
    alloc: Global,
    edits: &ResponseEdits,
    answer: Result<Response, BackendFault>,
    head: bool,
    close: bool,
) -> Result<Text, NoMemory>
    ensures { IfOk result (λ text. text ≡ rules.reply_of edits.now answer head close) }
{
    match answer {
        Ok(response) => write_response(alloc, edits.both(), response, head, close),
        Err(fault) => write_own(
            alloc,
            BAD_GATEWAY,
            None,
            Some(FaultName::Backend(fault)),
            close,
        ),
    }
}

// The bytes of the response, with the fields that are passed back after the edits.
fn write_response(
    alloc: Global,
    both: (Option<&Edits>, Option<&Edits>),
    response: Response,
    head: bool,
    close: bool,
) -> Result<Text, NoMemory>
    ensures { IfOk result (λ text. text ≡ reply
        (rules.edited_response (option_to_list (option_copied both.entry.0) ++ option_to_list (option_copied both.entry.1)) response) head close) }
{
    if both.0.is_none() && both.1.is_none() {
        return write_unedited_reply(alloc, &response, head, close);
    }
    let mut response = response;
    response.fields = edit_by(alloc, passed_back(alloc, &response.fields)?, both)?;
    write_reply(alloc, &response, head, close)
}

/// The code of the reply for what a backend answered.
pub fn status_of(answer: &Result<Response, BackendFault>) -> u16
    ensures { result ≡ rows.status_of answer.now }
{
    match answer {
        Ok(response) => response.code,
        Err(_) => BAD_GATEWAY,
    }
}

/// The fault of what a backend answered.
pub fn fault_of(answer: &Result<Response, BackendFault>) -> Option<FaultName>
    ensures { result ≡ rows.fault_of answer.now }
{
    match answer {
        Ok(_) => None,
        Err(fault) => Some(FaultName::Backend(*fault)),
    }
}
