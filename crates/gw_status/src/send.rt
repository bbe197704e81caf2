//! The line of a Route as serde's data. There are many Routes, so their lines are sent to `serde_json` member by member, without a
//! tree of values.
ghost use Rattle.std.specs.Prelude.{◌≡◌, OnOk, codes, map};
ghost use Rattle.serde.specs.Event.{Logs, text as text_sent};
ghost use Rattle.serde_json.specs.Data.{array, object, member, number, unsigned, string};
ghost use Rattle.serde_json.specs.Events.{members_len, SendsValue};
ghost use Rattle.serde_json.specs.View.{items_of};
ghost use Rattle.gw_text.specs.model.Forms.{printed};
ghost use Rattle.gw_status.specs.Sending.{given_first, SendsPart};
ghost use Rattle.gw_status.specs.StatusText.{condition_data, conditions_data, parent_conditions, parent_ref_members, parent_data, route_data, route_status_data};

use crate::status::{ParentStatus, RouteStatus};
use crate::write::truth;
use gw_text::{Condition, GATEWAY_GROUP, Name, Text};
use serde::{Described, Serialize, Serializer};
use std::alloc::Global;

/// The line of a Route that has entries.
#[derive(Drop)]
pub struct RouteLine<'s> {
    pub alloc: Global,
    pub status: &'s RouteStatus,
}

impl Described for RouteLine<'_> {
    ghost writes = { λ l. SendsValue (route_data l.status.now) };
}

impl Serialize for RouteLine<'_> {
    fn serialize<S: Serializer>(&self, out: &mut S) -> Result<(), S::Error> {
        send_route(self.alloc, self.status, out)
    }
}

#[tactic(auto, using(gw_text::proofs::Printing::printed_utf8))]
fn send_text<S: Serializer>(alloc: Global, text: &Text, out: &mut S) -> Result<(), S::Error>
    ensures { OnOk result (Logs (S.written out.old) (S.written out.new) (text_sent (printed text.now))) }
{
    if let Some(text) = text.as_str() {
        return out.str(text);
    }
    match text.printed(alloc) {
        Ok(text) => out.str(text.as_str()),
        Err(_) => Err(out.custom("no memory")),
    }
}

fn put_word<S: Serializer>(key: &str, word: &str, out: &mut S) -> Result<(), S::Error>
    ensures { OnOk result (SendsPart (member key.now (string word.now)) (S.written out.old) (S.written out.new)) }
{
    out.key(key)?;
    out.str(word)
}

fn put_text<S: Serializer>(
    alloc: Global,
    key: &str,
    text: &Text,
    out: &mut S,
) -> Result<(), S::Error>
    ensures { OnOk result (SendsPart (member key.now (string (printed text.now))) (S.written out.old) (S.written out.new)) }
{
    out.key(key)?;
    send_text(alloc, text, out)
}

fn put_port<S: Serializer>(port: Option<u16>, out: &mut S) -> Result<(), S::Error>
    ensures { OnOk result (SendsPart (given_first (codes "port") (λ port. number (unsigned port)) port) (S.written out.old) (S.written out.new)) }
{
    if let Some(port) = port {
        out.key("port")?;
        out.u64(u64::from(port))?;
    }
    Ok(())
}

fn put_section<S: Serializer>(
    alloc: Global,
    section: &Option<Name>,
    out: &mut S,
) -> Result<(), S::Error>
    ensures { OnOk result (SendsPart (given_first (codes "sectionName") (λ name. string (printed name)) section.now) (S.written out.old) (S.written out.new)) }
{
    if let Some(name) = section {
        put_text(alloc, "sectionName", name.text(), out)?;
    }
    Ok(())
}

fn send_condition<S: Serializer>(condition: &Condition, out: &mut S) -> Result<(), S::Error>
    ensures { OnOk result (SendsValue (condition_data condition.now) (S.written out.old) (S.written out.new)) }
{
    out.begin_map(Some(3))?;
    put_word("reason", condition.reason.text(), out)?;
    put_word("status", truth(condition.truth), out)?;
    put_word("type", condition.kind.text(), out)?;
    out.end_map()
}

fn send_conditions<S: Serializer>(status: &ParentStatus, out: &mut S) -> Result<(), S::Error>
    ensures { OnOk result (SendsValue (conditions_data (parent_conditions status.now)) (S.written out.old) (S.written out.new)) }
{
    out.begin_seq(Some(2))?;
    send_condition(&status.accepted, out)?;
    send_condition(&status.resolved, out)?;
    out.end_seq()
}

// How many members the parentRef of an entry has.
#[tactic(auto, unfolding(crate::specs::StatusText::parent_ref_members, crate::specs::StatusText::parent_key_members))]
fn member_count(status: &ParentStatus) -> usize
    ensures { result ≡ members_len (parent_ref_members status.now) }
{
    match (&status.port, &status.section) {
        (None, None) => 4,
        (Some(_), Some(_)) => 6,
        (Some(_), None) | (None, Some(_)) => 5,
    }
}

fn send_parent_ref<S: Serializer>(
    alloc: Global,
    status: &ParentStatus,
    out: &mut S,
) -> Result<(), S::Error>
    ensures { OnOk result (SendsValue (object (parent_ref_members status.now)) (S.written out.old) (S.written out.new)) }
{
    out.begin_map(Some(member_count(status)))?;
    put_word("group", GATEWAY_GROUP, out)?;
    put_word("kind", "Gateway", out)?;
    put_text(alloc, "name", status.name.text(), out)?;
    put_text(alloc, "namespace", &status.namespace, out)?;
    put_port(status.port, out)?;
    put_section(alloc, &status.section, out)?;
    out.end_map()
}

#[tactic(auto, unfolding(crate::specs::StatusText::parent_data))]
fn send_parent<S: Serializer>(
    alloc: Global,
    status: &ParentStatus,
    out: &mut S,
) -> Result<(), S::Error>
    ensures { OnOk result (SendsValue (parent_data status.now) (S.written out.old) (S.written out.new)) }
{
    out.begin_map(Some(3))?;
    out.key("conditions")?;
    send_conditions(status, out)?;
    put_text(alloc, "controllerName", &status.controller, out)?;
    out.key("parentRef")?;
    send_parent_ref(alloc, status, out)?;
    out.end_map()
}

fn send_parents<S: Serializer>(
    alloc: Global,
    statuses: &[ParentStatus],
    out: &mut S,
) -> Result<(), S::Error>
    ensures { OnOk result (SendsValue (array (items_of (map parent_data statuses.now))) (S.written out.old) (S.written out.new)) }
{
    out.begin_seq(Some(statuses.len()))?;
    'statuses: for status in statuses {
        send_parent(alloc, status, out)?;
    }
    out.end_seq()
}

fn send_route_status<S: Serializer>(
    alloc: Global,
    status: &RouteStatus,
    out: &mut S,
) -> Result<(), S::Error>
    ensures { OnOk result (SendsValue (route_status_data status.now) (S.written out.old) (S.written out.new)) }
{
    out.begin_map(Some(1))?;
    out.key("parents")?;
    send_parents(alloc, status.parents.as_slice(), out)?;
    out.end_map()
}

#[tactic(auto, unfolding(crate::specs::StatusText::route_data))]
fn send_route<S: Serializer>(
    alloc: Global,
    status: &RouteStatus,
    out: &mut S,
) -> Result<(), S::Error>
    ensures { OnOk result (SendsValue (route_data status.now) (S.written out.old) (S.written out.new)) }
{
    out.begin_map(Some(4))?;
    put_word("kind", "HTTPRoute", out)?;
    put_text(alloc, "name", &status.key.name, out)?;
    put_text(alloc, "namespace", &status.key.namespace, out)?;
    out.key("status")?;
    send_route_status(alloc, status, out)?;
    out.end_map()
}
