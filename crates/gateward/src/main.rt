//! gateward: a Gateway API controller. `gateward status` reads watch events, one JSON object a line, and prints the
//! statuses of the objects that are held after them; `gateward explain` prints what becomes of a request by them;
//! `gateward replay` reads a script of events and connections, and prints what the connections are served; `gateward generate`
//! writes such a script, drawn from a seed, or runs it; `gateward serve` takes events at an admin endpoint, and serves the
//! connections at its doors by them.
#![tactic(auto)]

mod output;
mod run;

use gw_command::Fault;
use gw_net::{LoopEdge, StdSink, StdSource, ThreadCrew, WallClock};
use gw_snap::SnapFaults;
use std::alloc::AllocError;
use std::io::ErrorKind;
use std::process::ExitCode;
use std::rt::Env;
use std::{env, io};

// The words that follow the program's name. Words that aren't UTF-8 are no command, and so none at all.
fn given_words(rt: &(impl Env + AllocGlobal)) -> Result<Vec<String>, AllocError> {
    let mut words = Vec::new(rt.alloc());
    match env::args(rt) {
        Ok(args) => {
            for word in args.skip(1) {
                words.push(word)?;
            }
            Ok(words)
        }
        Err(error) if error.kind() == ErrorKind::OutOfMemory => Err(AllocError),
        Err(_) => Ok(words),
    }
}

fn main(rt: HostRuntime) -> ExitCode {
    let alloc = rt.alloc();
    let Ok(words) = given_words(&rt) else {
        return ExitCode::from(Fault::NoMemory.ending().exit_code);
    };
    let Ok(clock_rt) = rt.clone() else {
        return ExitCode::from(Fault::NoMemory.ending().exit_code);
    };
    let Ok(edge_rt) = rt.clone() else {
        return ExitCode::from(Fault::NoMemory.ending().exit_code);
    };
    let mut source = StdSource::new(rt.stdin());
    let mut sink = StdSink::new(io::writer(&rt));
    ExitCode::from(run::run(
        &rt,
        alloc,
        words.as_slice(),
        &mut source,
        &mut sink,
        WallClock::new(clock_rt),
        &mut LoopEdge::new(edge_rt),
        &mut ThreadCrew::new(alloc),
        &mut SnapFaults::new(),
    ))
}
