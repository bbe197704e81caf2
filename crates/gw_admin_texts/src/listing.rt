//! The replies that list something.
ghost use Rattle.std.specs.Prelude.{◌≡◌, ◌++◌, length, IfOk, OnOk, option_copied, string_bytes};
ghost use Rattle.serde_json.specs.View.{members_view, view};
ghost use Rattle.gw_json.specs.Lines.{line_of};
ghost use Rattle.gw_admin_texts.specs.model.Listings as listings;

use crate::reply::{Reply, Status};
use gw_json::{push_line, put_number, put_text};
use gw_match::{DoorTable, Tables};
use gw_rows::Row;
use gw_text::{Host, NoMemory, Text};
use serde_json::{Map, Value, json};
use std::alloc::Global;

/// The reply to the question whether the program is there.
pub fn health_reply(alloc: Global) -> Result<Reply, NoMemory>
    ensures { IfOk result (λ reply. reply ≡ listings.health_reply) }
{
    Ok(Reply::of(Status::Ok, Text::of(alloc, "ok\n")?))
}

/// The reply to a request for the statuses, of which the text is given with the number of changes for which it stands.
pub fn status_reply(alloc: Global, statuses: &Text, front: u64) -> Result<Reply, NoMemory>
    ensures { IfOk result (λ reply. reply ≡ listings.status_reply statuses.now front) }
{
    let line = front_line(alloc, front)?;
    let mut text = statuses.bytes().to_vec(alloc)?;
    text.extend_from_slice(line.as_bytes())?;
    Ok(Reply::of(Status::Ok, Text::from_vec(text)))
}

/// The reply to a request for the rows of all doors.
#[tactic(auto, unfolding(crate::specs::model::Listings::table_reply))]
pub fn table_reply(alloc: Global, tables: &Tables, front: u64) -> Result<Reply, NoMemory>
    requires { length tables.now.tables ≡ length tables.now.doors }
    ensures { IfOk result (λ reply. reply ≡ listings.table_reply tables.now.tables front) }
{
    let line = front_line(alloc, front)?;
    let mut text = String::new(alloc);
    'doors: for door in 0..tables.doors() {
        push_table(alloc, door as u64, tables.table(door), &mut text)?;
    }
    text.push_str(line.as_str())?;
    Ok(Reply::of(Status::Ok, Text::from_vec(text.into_bytes())))
}

// For how many changes the lines before it stand.
fn front_line(alloc: Global, front: u64) -> Result<String, NoMemory>
    ensures { IfOk result (λ line. string_bytes line ≡ line_of (listings.front_data front)) }
{
    let value = front_value(alloc, front)?;
    let mut line = String::new(alloc);
    push_line(alloc, &mut line, &value)?;
    Ok(line)
}

fn front_value(alloc: Global, front: u64) -> Result<Value, NoMemory>
    ensures { IfOk result (λ v. view v ≡ listings.front_data front) }
{
    json!(in alloc; {"front": front})
}

// The rows of a door.
fn push_table(
    alloc: Global,
    door: u64,
    table: &DoorTable,
    text: &mut String,
) -> Result<(), NoMemory>
    ensures { OnOk result (string_bytes text.new ≡ string_bytes text.old ++ listings.rows_text door table.now.rows) }
{
    let rows = table.all_rows(alloc)?;
    'rows: for row in rows.as_slice() {
        push_row(alloc, door, row, text)?;
    }
    Ok(())
}

#[tactic(auto, using(crate::proofs::Floats::row_has_no_float))]
fn push_row(alloc: Global, door: u64, row: &Row, text: &mut String) -> Result<(), NoMemory>
    ensures { OnOk result (string_bytes text.new ≡ string_bytes text.old ++ line_of (listings.row_data door row.now)) }
{
    let value = row_value(alloc, door, row)?;
    push_line(alloc, text, &value)
}

#[tactic(auto, unfolding(crate::specs::model::Listings::row_data))]
fn row_value(alloc: Global, door: u64, row: &Row) -> Result<Value, NoMemory>
    ensures { IfOk result (λ v. view v ≡ listings.row_data door row.now) }
{
    let mut members = Map::new(alloc);
    put_number(alloc, &mut members, "door", door)?;
    put_listener(alloc, &mut members, row)?;
    put_route(alloc, &mut members, row)?;
    put_hostname(alloc, &mut members, row.hostname.as_ref())?;
    Ok(Value::from(members))
}

fn put_listener(alloc: Global, members: &mut Map<String, Value>, row: &Row) -> Result<(), NoMemory>
    ensures { OnOk result (members_view members.new.entries ≡ listings.with_listener row.now (members_view members.old.entries)) }
{
    let name = row.name.printed(alloc)?;
    put_text(alloc, members, "listener", name.as_str())
}

// The Route of a row, and the places of its rule and match.
fn put_route(alloc: Global, members: &mut Map<String, Value>, row: &Row) -> Result<(), NoMemory>
    ensures { OnOk result (members_view members.new.entries ≡ listings.with_route row.now (members_view members.old.entries)) }
{
    let route = row.key.print(alloc)?;
    put_number(alloc, members, "match", u64::from(row.place))?;
    let route = route.printed(alloc)?;
    put_text(alloc, members, "route", route.as_str())?;
    put_number(alloc, members, "rule", u64::from(row.rule))
}

fn put_hostname(
    alloc: Global,
    members: &mut Map<String, Value>,
    hostname: Option<&Host>,
) -> Result<(), NoMemory>
    ensures { OnOk result (members_view members.new.entries ≡ listings.with_hostname (option_copied hostname.entry) (members_view members.old.entries)) }
{
    match hostname {
        Some(hostname) => {
            let text = hostname.print(alloc)?;
            let text = text.printed(alloc)?;
            put_text(alloc, members, "hostname", text.as_str())
        }
        None => Ok(()),
    }
}
