//! The script of a seed.
ghost use Rattle.std.specs.Prelude.{◌≡◌, ℕ, ◌+◌, ◌*◌, ◌++◌, ◌<◌, ◌≤◌, ◌^◌, length, string_bytes, IfOk, OnOk};
ghost use Rattle.std.specs.List.{All, enumerate_from, flat_map};
ghost use Rattle.gw_generate.specs.Lines.{request_lines, route_lines};
ghost use Rattle.gw_generate.specs.Scripts.{script_text, text_of};

use crate::draw::{drawn, generator};
use crate::line::{OBJECTS, push_request, push_route};
use gw_text::{NoMemory, Text};
use std::alloc::Global;

/// The script of a seed, of so many Routes and so many requests.
#[tactic(auto, unfolding(crate::specs::Scripts::script_text))]
pub fn generated(alloc: Global, seed: u64, routes: u32, requests: u32) -> Result<Text, NoMemory>
    requires some { 0 < routes }
    ensures text { IfOk result (λ text. text ≡ script_text seed routes requests) }
    ensures size { IfOk result (λ text. length text ≤ 1024 + 512 * routes + 256 * requests) }
{
    let mut words = generator(seed);
    let digits = drawn(alloc, &mut words, routes, 10)?;
    let picks = drawn(alloc, &mut words, requests, routes)?;
    let mut script = String::new(alloc);
    script.push_str(OBJECTS)?;
    push_routes(&mut script, digits.as_slice())?;
    push_requests(&mut script, digits.as_slice(), picks.as_slice())?;
    Ok(finished(script))
}

fn finished(script: String) -> Text
    ensures { result ≡ string_bytes script }
{
    Text::from_vec(script.into_bytes())
}

// The Routes that have these digits.
fn push_routes(script: &mut String, digits: &[usize]) -> Result<(), NoMemory>
    requires { length digits.now < 2 ^ 32 }
    ensures lines { OnOk result (string_bytes script.new ≡ string_bytes script.old
        ++ flat_map (λ route. text_of (route_lines (length digits.now) route)) (enumerate_from 0 digits.now)) }
    ensures size { OnOk result (length (string_bytes script.new) ≤ length (string_bytes script.old) + 512 * length digits.now) }
{
    'digits: for (number, digit) in digits.iter().enumerate() {
        push_route(script, digits.len(), number, *digit)?;
    }
    Ok(())
}

// A request for each of these numbers of Routes, which have these digits.
fn push_requests(script: &mut String, digits: &[usize], picks: &[usize]) -> Result<(), NoMemory>
    requires few { length picks.now < 2 ^ 32 }
    requires within { All (λ route. route < length digits.now) picks.now }
    ensures lines { OnOk result (string_bytes script.new ≡ string_bytes script.old
        ++ flat_map (λ request. text_of (request_lines (length picks.now) digits.now request)) (enumerate_from 0 picks.now)) }
    ensures size { OnOk result (length (string_bytes script.new) ≤ length (string_bytes script.old) + 256 * length picks.now) }
{
    'picks: for (number, route) in picks.iter().enumerate() {
        push_request(script, picks.len(), digits, number, *route)?;
    }
    Ok(())
}
