ghost use Rattle.std.specs.Prelude.{◌≡◌, ◌++◌, IfOk, OnOk, IsTrue, codes, decimal, unwrap_or};
ghost use Rattle.gw_text.specs.model.Matches.{path_fits};
ghost use Rattle.gw_filters.specs.model.Locations.{location_of, port_of, port_text, scheme_of, scheme_port};

use crate::path::{modified, push_query};
use gw_frames::Request;
use gw_route::{PathMatch, Redirect};
use gw_text::{NoMemory, Text};
use itoa::Buffer;
use std::alloc::Global;

/// Where a redirect sends the client of a request; the port is that of the listener.
#[tactic(auto, unfolding(crate::specs::model::Locations::location_of))]
pub fn location(
    alloc: Global,
    r: &Redirect,
    m: &PathMatch,
    request: &Request,
    port: u16,
) -> Result<Text, NoMemory>
    requires { IsTrue (path_fits m.now request.now.path) }
    ensures { IfOk result (λ text. text ≡ location_of r.now m.now request.now port) }
{
    let scheme = scheme_of(r);
    let mut text = Vec::from_slice(alloc, scheme)?;
    text.extend_from_slice(b"://")?;
    text.extend_from_slice(host_of(r, request))?;
    push_port(&mut text, scheme, port_of(r, port))?;
    text.extend_from_slice(modified(alloc, &r.path, m, &request.path)?.bytes())?;
    push_query(&mut text, &request.query)?;
    Ok(Text::from_vec(text))
}

fn scheme_of(r: &Redirect) -> &[u8]
    ensures { result.now ≡ scheme_of r.now }
{
    match &r.scheme {
        Some(scheme) => scheme.bytes(),
        None => b"http".as_slice(),
    }
}

fn host_of<'r>(r: &'r Redirect, request: &'r Request) -> &'r [u8]
    ensures { result.now ≡ unwrap_or r.now.hostname request.now.host }
{
    match &r.hostname {
        Some(hostname) => hostname.bytes(),
        None => request.host.bytes(),
    }
}

fn port_of(r: &Redirect, listener: u16) -> u16
    ensures { result ≡ port_of r.now.port r.now.scheme listener }
{
    if let Some(port) = r.port {
        return port;
    }
    match &r.scheme {
        Some(scheme) => scheme_port(scheme.bytes()),
        None => listener,
    }
}

fn scheme_port(scheme: &[u8]) -> u16
    ensures { result ≡ scheme_port scheme.now }
{
    if scheme == b"https".as_slice() {
        443
    } else {
        80
    }
}

fn push_port(text: &mut Vec<u8>, scheme: &[u8], port: u16) -> Result<(), NoMemory>
    ensures { OnOk result (text.new.items ≡ text.old.items ++ port_text scheme.now port) }
{
    if port == scheme_port(scheme) {
        return Ok(());
    }
    push_number(text, port)
}

fn push_number(text: &mut Vec<u8>, port: u16) -> Result<(), NoMemory>
    ensures { OnOk result (text.new.items ≡ text.old.items ++ codes ":" ++ decimal port) }
{
    text.push(b':')?;
    text.extend_from_slice(Buffer::new().format(port).as_bytes())?;
    Ok(())
}
