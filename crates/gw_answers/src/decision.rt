ghost use Rattle.std.specs.Prelude.{◌≡◌, Some, None, IfOk, OnOk, OnErr, IsTrue, option_map, option_copied, slice_get};
ghost use Rattle.gw_match.specs.model.Choice.{listener_at};
ghost use Rattle.gw_text.specs.model.Matches.{path_fits};
ghost use Rattle.gw_decide.specs.model.Verdicts.{choose};
ghost use Rattle.gw_answers.specs.Left.{AreLeft};
ghost use Rattle.gw_answers.specs.model.Decisions as rules;

use crate::books::{Books, Drawn};
use crate::chosen::{BackendKey, Chosen};
use crate::edits::ResponseEdits;
use crate::forward::write_forwarded;
use crate::redirect::redirect;
use gw_decide::{Verdict, decide};
use gw_frames::Request;
use gw_match::DoorTable;
use gw_replies::FaultName;
use gw_route::BackendState;
use gw_rows::Row;
use gw_text::{NoMemory, Socket, Sockets, Text};
use std::alloc::Global;
use std::marker::Model;

/// A reply of this program's own.
#[derive(Drop)]
pub struct Reply {
    pub code: u16,
    /// Where a redirect sends the client.
    pub location: Option<Text>,
    pub fault: Option<FaultName>,
}

/// A request to a backend's endpoint.
#[derive(Drop)]
pub struct Forward {
    pub to: Socket,
    pub bytes: Text,
    /// What is done to the response.
    pub edits: ResponseEdits,
}

/// What is done about a request.
#[derive(Drop)]
pub enum Action {
    Reply(Reply),
    Forward(Forward),
}

/// What was chosen for a request, and what is done about it.
#[derive(Drop)]
pub struct Decision {
    pub chosen: Chosen,
    pub action: Action,
}

impl Model for Decision {
    ghost use Rattle.gw_answers.specs.model.Decisions.{Decision as Plain};
    ghost use Rattle.gw_answers.specs.Seen.{seen_action};

    ghost Value = { Plain };

    ghost view = { λ d. record { chosen = d.chosen; action = seen_action d.action } };
}

impl Decision {
    /// What is done about a request at the door of the table. Where memory is wanted, picks of the request may be counted, and a book
    /// may be empty.
    #[tactic(auto, unfolding(crate::specs::model::Decisions::decision_of, crate::specs::model::Decisions::books_after))]
    pub fn of(
        alloc: Global,
        table: &DoorTable,
        request: &Request,
        books: &mut Books,
    ) -> Result<Decision, NoMemory>
        ensures value { IfOk result (λ d. d ≡ rules.decision_of table.now request.now books.old) }
        ensures after { OnOk result (books.new ≡ rules.books_after table.now request.now books.old) }
        ensures err { OnErr result (AreLeft books.old (rules.books_after table.now request.now books.old) books.new) }
    {
        let listener = listener_name(alloc, table, request)?;
        match decide(table, request) {
            Verdict::NotFound => Ok(replied(Chosen::unrouted(listener), 404, None)),
            Verdict::Redirect(row) => redirect(
                alloc,
                Chosen::routed(alloc, listener, row)?,
                row,
                request,
            ),
            Verdict::Nothing(row) => Ok(replied(
                Chosen::routed(alloc, listener, row)?,
                500,
                Some(FaultName::NoBackend),
            )),
            Verdict::Choose(row) => by_pick(
                alloc,
                Chosen::routed(alloc, listener, row)?,
                row,
                request,
                books,
            ),
        }
    }
}

// The name of the listener that takes the request.
fn listener_name(
    alloc: Global,
    table: &DoorTable,
    request: &Request,
) -> Result<Option<Text>, NoMemory>
    ensures { IfOk result (λ name. name ≡ option_map (λ l. l.name) (listener_at table.now.listeners request.now.host)) }
{
    match table.listener(&request.host) {
        Some(listener) => Ok(Some(listener.name.copy(alloc)?)),
        None => Ok(None),
    }
}

/// A reply of this program's own that is no redirect.
pub(crate) fn replied(chosen: Chosen, code: u16, fault: Option<FaultName>) -> Decision
    ensures { result ≡ rules.replied chosen code fault }
{
    Decision {
        chosen,
        action: Action::Reply(Reply {
            code,
            location: None,
            fault,
        }),
    }
}

// The request goes to the backend that is next.
fn by_pick(
    alloc: Global,
    chosen: Chosen,
    row: &Row,
    request: &Request,
    books: &mut Books,
) -> Result<Decision, NoMemory>
    requires { IsTrue (path_fits row.now.test.path request.now.path) }
    ensures value { IfOk result (λ d. d ≡ rules.by_backend chosen row.now request.now books.old (rules.picked_backend row.now books.old)) }
    ensures after { OnOk result (books.new ≡ rules.after_verdict books.old (choose row.now)) }
    ensures err { OnErr result (AreLeft books.old (rules.after_verdict books.old (choose row.now)) books.new) }
{
    match books.pick_backend(alloc, row)? {
        Some(drawn) => {
            let chosen = chosen.with_backend(BackendKey::of(alloc, drawn.backend)?);
            by_state(alloc, chosen, row, drawn, request, books)
        }
        None => Ok(replied(chosen, 500, Some(FaultName::NoBackend))),
    }
}

// What the state of the backend comes to.
fn by_state(
    alloc: Global,
    chosen: Chosen,
    row: &Row,
    drawn: Drawn<'_>,
    request: &Request,
    books: &mut Books,
) -> Result<Decision, NoMemory>
    requires fits { IsTrue (path_fits row.now.test.path request.now.path) }
    requires place { slice_get row.now.plan.backends drawn.place ≡ Some drawn.backend.now }
    ensures value { IfOk result (λ d. d ≡ rules.by_state chosen row.now request.now books.old drawn.entry.backend.now drawn.entry.backend.now.state) }
    ensures after { OnOk result (books.new ≡ rules.after_endpoint books.old drawn.entry.backend.now drawn.entry.backend.now.state) }
    ensures err { OnErr result (AreLeft books.old (rules.after_endpoint books.old drawn.entry.backend.now drawn.entry.backend.now.state) books.new) }
{
    let backend = drawn.backend;
    let (code, fault) = match &backend.state {
        BackendState::InvalidKind => (500, FaultName::InvalidKind),
        BackendState::NotPermitted => (500, FaultName::RefNotPermitted),
        BackendState::NotFound => (500, FaultName::BackendNotFound),
        BackendState::BadProtocol => (500, FaultName::UnsupportedProtocol),
        BackendState::NoEndpoints => (503, FaultName::NoEndpoints),
        BackendState::Ready(sockets) => {
            let picked = books.pick_endpoint(backend, sockets.as_slice())?;
            return by_endpoint(alloc, chosen, row, drawn, picked, request);
        }
    };
    Ok(replied(chosen, code, Some(fault)))
}

// The request is sent to the endpoint of the backend.
fn by_endpoint(
    alloc: Global,
    chosen: Chosen,
    row: &Row,
    drawn: Drawn<'_>,
    picked: Option<Socket>,
    request: &Request,
) -> Result<Decision, NoMemory>
    requires fits { IsTrue (path_fits row.now.test.path request.now.path) }
    requires place { slice_get row.now.plan.backends drawn.place ≡ Some drawn.backend.now }
    ensures { IfOk result (λ d. d ≡ rules.by_endpoint chosen row.now request.now drawn.entry.backend.now picked) }
{
    let Some(to) = picked else {
        return Ok(replied(chosen, 503, Some(FaultName::NoEndpoints)));
    };
    let bytes = write_forwarded(alloc, &row.plan, drawn.backend, &row.test.path, request)?;
    let edits = ResponseEdits::of(&row.plan, &drawn)?;
    Ok(Decision {
        chosen: chosen.with_endpoint(to),
        action: Action::Forward(Forward { to, bytes, edits }),
    })
}
