//! Connections of clients.
ghost use Rattle.std.specs.Prelude.{◌≡◌, ◌+◌, ◌<◌, ◌≤◌, ◌^◌, ◌==◌, ◌++◌, ℕ, List, [], Ok, Err, Some, length, map, bytes_eq, IfErr, IfOk, OnOk};
ghost use Rattle.std.specs.BTreeMap.{get_by_text};
ghost use Rattle.std.specs.Map.{update};
ghost use Rattle.gw_link.specs.Upstreams.{Becomes, Refuses};
ghost use Rattle.gw_snap.specs.Lists.{BeginsWith};
ghost use Rattle.gw_worker.specs.Flows.{outside};
ghost use Rattle.gw_worker.specs.Workers.{IsAt};
ghost use Rattle.gw_worker.specs.model.Sessions.{Part, Place};
ghost use Rattle.gw_replay.specs.Replays.{Begins, Sends};
ghost use Rattle.gw_conns.specs.Standing.{IsReady, IsServedBy, Stands, conn_of};
ghost use Rattle.gw_replay.specs.States.{Does, Halted, HaltsAt, HasClient, IsCause, IsKept, IsOpen, ServedBy, Unless, number_of, site_of};

use crate::print::{Said, push_end, push_written};
use crate::replay::{Client, Replay};
use crate::rows::push_rows;
use crate::stop::Stop;
use gw_answers::ServedRow;
use gw_conns::Connection;
use gw_hub::Controller;
use gw_link::MemUpstream;
use gw_script::StepRefusal;
use gw_snap::OpenFault;
use gw_text::NoMemory;
use gw_worker::{Flow, Worker};
use std::alloc::AllocGlobal;
use std::random::RandomSource;
use std::sync::Wait;

impl<R: Wait + Drop> Replay<R> {
    /// A connection of this name begins, unless one is open.
    pub(crate) fn open(
        &mut self,
        number: u64,
        name: &str,
        worker: usize,
        door: usize,
    ) -> Result<(), NoMemory>
        requires few { self.old.refused < 2 ^ 63 }
        requires worker { worker < length self.old.workers.items }
        requires door { door < length (site_of self.old).doors }
        ensures does { OnOk result (Does (λ s s' text. Begins number name.now worker door (s.clients name.now) s s' text) self.old self.new) }
        ensures refused { OnOk result (self.new.refused ≤ self.old.refused + 1) }
        ensures skipped { OnOk result (self.new.skipped ≡ self.old.skipped) }
    {
        if self.clients.contains_key(name) {
            return self.refuse_line(number, StepRefusal::NotStep);
        }
        let conn = Connection::new(self.alloc, door, self.polled);
        self.keep(name, Client { conn, worker })
    }

    // Keeps an open connection under its name.
    fn keep(&mut self, name: &str, client: Client) -> Result<(), NoMemory>
        ensures rest { self.new ≡ record self.old { clients = self.new.clients } }
        ensures kept { OnOk result ((n : List ℕ) → get_by_text self.new.clients n ≡ update bytes_eq (get_by_text self.old.clients) name.now (Some client) n) }
    {
        let name = String::from_str(self.alloc, name)?;
        self.clients.insert(name, client)?;
        Ok(())
    }

    /// The client of this name sends a piece, or has sent all where it is empty.
    pub(crate) fn send<W: Wait + RandomSource + AllocGlobal>(
        &mut self,
        rt: &W,
        number: u64,
        name: &str,
        piece: &[u8],
    ) -> Result<(), Stop>
        requires kept { IsKept self.old }
        requires few { self.old.refused < 2 ^ 63 }
        ensures does { OnOk result (Does (λ s s' text. Sends (site_of self.old) number name.now piece.now (s.clients name.now) s s' text) self.old self.new) }
        ensures stops { IfErr result (λ stop. HaltsAt stop (IsOpen name.now) self.old self.new) }
        ensures refused { OnOk result (self.new.refused ≤ self.old.refused + 1) }
        ensures skipped { OnOk result (self.new.skipped ≡ self.old.skipped) }
    {
        let Some(mut client) = self.clients.remove(name) else {
            return Ok(self.refuse_line(number, StepRefusal::NotStep)?);
        };
        let said = Said { name, line: number };
        match self.serve(rt, said, &mut client, piece)? {
            Flow::More => Ok(self.keep(name, client)?),
            Flow::Ended(_) => Ok(()),
        }
    }

    // Serves a connection by a piece, and writes what came of it.
    fn serve<W: Wait + RandomSource + AllocGlobal>(
        &mut self,
        rt: &W,
        said: Said<'_>,
        client: &mut Client,
        piece: &[u8],
    ) -> Result<Flow, Stop>
        requires { HasClient self.old client.old }
        ensures served { IfOk result (λ flow. ServedBy said.entry.line said.entry.name.now piece.now client.old client.new flow self.old self.new) }
        ensures stops { IfErr result (λ stop. Unless stop (Halted stop self.old self.new)) }
        ensures clients { self.new.clients ≡ self.old.clients }
        ensures refused { self.new.refused ≡ self.old.refused }
        ensures skipped { self.new.skipped ≡ self.old.skipped }
    {
        let rows = client.conn.served().as_slice().len();
        let exchanges = self.backends.exchanges().len();
        let mut wrote = Vec::new(self.alloc);
        let worker = &mut self.workers[client.worker];
        let flow = take_published(
            rt,
            &self.controller,
            client,
            worker,
            piece,
            &mut wrote,
            &mut self.backends,
        )?;
        let (_, rows) = client.conn.served().as_slice().split_at(rows);
        let (_, exchanges) = self.backends.exchanges().split_at(exchanges);
        push_rows(self.alloc, &mut self.text, said, rows, exchanges)?;
        push_statuses(&mut self.statuses, rows)?;
        push_written(self.alloc, &mut self.text, said, wrote.as_slice())?;
        push_end(self.alloc, &mut self.text, said, flow)?;
        Ok(flow)
    }
}

// What comes of a piece, where the worker has seen no more than is published.
fn take_published<W: Wait + RandomSource + AllocGlobal, R: Wait + Drop>(
    rt: &W,
    controller: &Controller<R>,
    client: &mut Client,
    worker: &mut Worker,
    piece: &[u8],
    wrote: &mut Vec<u8>,
    backends: &mut MemUpstream,
) -> Result<Flow, Stop>
    requires door { (conn_of client.old.conn).door < length worker.old.pass.fixed.0 }
    requires ready { IsReady client.old.conn }
    requires none { wrote.old.items ≡ [] }
    requires book { worker.old.pass.book ≡ controller.now.book }
    ensures served { IfOk result (λ flow. (p : Place) (bytes : List ℕ) (parts : List Part) (text : List ℕ) → IsAt worker.old p → Stands client.old.conn p bytes parts text
        → IsServedBy (Refuses backends.old backends.new) p worker.old worker.new client.new.conn (bytes ++ piece.now) (length piece.now == 0) parts text
        (outside (Some []) (Some backends.old.exchanges) backends.old.calls.faults)
        (outside (Some wrote.new.items) (Some backends.new.exchanges) backends.new.calls.faults) flow) }
    ensures ready { result ≡ Ok Flow.More → IsReady client.new.conn }
    ensures becomes { OnOk result (Becomes backends.old backends.new) }
    ensures starved { OnOk result (backends.new.starved ≡ backends.old.starved) }
    ensures seen { OnOk result (length worker.new.pass.seen ≤ length controller.now.published) }
    ensures stops { IfErr result (λ stop. IsCause stop (length controller.now.published) worker.new × (Unless stop (number_of stop ≡ client.old.worker))) }
    ensures later { BeginsWith worker.old.pass.seen worker.new.pass.seen }
    ensures fixed { worker.new.pass.fixed ≡ worker.old.pass.fixed }
    ensures book { worker.new.pass.book ≡ worker.old.pass.book }
    ensures worker { client.new.worker ≡ client.old.worker }
{
    let flow = match client.conn.take(rt, worker, piece, wrote, backends) {
        Ok(flow) => flow,
        Err(OpenFault::Place) => return Err(Stop::Place(client.worker)),
        Err(OpenFault::NoMemory) => return Err(Stop::NoMemory),
    };
    if controller.ahead(worker.pass()) {
        return Err(Stop::Ahead(client.worker));
    }
    Ok(flow)
}

fn push_statuses(statuses: &mut Vec<u16>, rows: &[ServedRow]) -> Result<(), NoMemory>
    ensures { OnOk result (statuses.new.items ≡ statuses.old.items ++ map (λ row. row.status) rows.now) }
{
    'rows: for row in rows {
        statuses.push(row.status)?;
    }
    Ok(())
}
