ghost use Rattle.std.specs.Prelude.{◌≡◌, ℕ, List, Option, ◌+◌, ◌*◌, ◌<◌, ◌≤◌, ◌⊎◌, ◌↔◌, [], length, map, Ok, Err, IfSome, string_bytes};
ghost use Rattle.gw_link.specs.Faults.{HasRisen};
ghost use Rattle.gw_link.specs.declared.source.TheConstants.{MOST_INPUT, MOST_PIECE};
ghost use Rattle.gw_link.specs.Pieces.{Takes, TakesPart};
ghost use Rattle.gw_command.specs.Faults.{exit_code, fault_line};
ghost use Rattle.gw_serve.specs.Serving.{Leaves, job_count, most_workers, ready_line};
ghost use Rattle.gw_serve.specs.declared.fault.ServeFault.{ServeFault};
ghost use Rattle.gw_command.specs.Starts.{Setting as PlainSetting, Starts};
ghost use Rattle.gw_command.specs.Words.{most_requests, most_routes};
ghost use Rattle.gateward.specs.Runs.{EndsAtStart, Finishes, Generates, GivesUp, HasEnded, HasFailed, HasServed, IsCaused, IsExit, SetToGenerate, SetToServe, WritesText, WritesFront, WritesPiece, code_of, service_fault};

use crate::output::{generation_output, output_of};
use gw_command::{Fault, GenerateWords, Setting, start};
use gw_edge::{Acceptor, Crew};
use gw_link::{Clock, Link, ReadFault, Sink, Source, Upstream, read_all, write_all};
use gw_polling::{PollEdge, PollLink, PollUpstream, Ring};
use gw_replay::{Ending, Replayed};
use gw_serve::{ServeFault, Service, serve};
use gw_snap::SnapFaults;
use std::alloc::{AllocGlobal, Global};
use std::random::RandomSource;
use std::sync::Wait;
use std::thread::Threads;

/// The exit code where a script is given up for want of a place.
const NO_PLACE: u8 = 5;

/// The exit code where a worker had seen more than was published.
const AHEAD: u8 = 8;

/// Runs the program on the words that follow its name, and gives its exit code: 0, or 1 where a line was refused, or
/// the one of the fault by which it ends.
#[tactic(auto, using(gw_command::proofs::Starting::starts_unique))]
pub fn run<
    L: Link + Send + 'static,
    A: Acceptor<Conn = L> + Send + 'static,
    U: Upstream + Send + 'static,
    P: PollLink + Send + 'static,
    V: PollUpstream + Send + 'static,
    G: Ring<Link = P, Up = V> + Send + 'static,
    S: Source,
    K: Sink,
    C: Clock + Drop + Send + 'static,
    E: PollEdge<Accept = A, Up = U, Ring = G>,
    W: Crew,
    R: Wait + Threads + RandomSource + AllocGlobal + Clone + Drop + Send + Sync + 'static,
>(
    rt: &R,
    alloc: Global,
    words: &[String],
    source: &mut S,
    sink: &mut K,
    mut clock: C,
    edge: &mut E,
    crew: &mut W,
    snap: &mut SnapFaults,
) -> u8
    // Where it serves, connections were served by all jobs to their ends. Where it writes a script or runs it, that is said below. Else, where
    // the source tells, its bytes were read to their end, and the exit code is that of their lines; where the sink tells too, it has their text.
    ensures text { result < 2 → ((result ≡ 0) × HasServed (map string_bytes words.now) (K.written sink.old) (K.written sink.new) (W.started crew.old) (W.started crew.new) (W.ended crew.new))
        ⊎ (SetToGenerate (map string_bytes words.now) ⊎ IfSome (S.left source.old) (λ input.
        WritesText result (map string_bytes words.now) input (C.moments clock) (S.left source.new) (K.written sink.old) (K.written sink.new))) }
    ensures served { result < 2 → SetToServe (map string_bytes words.now) →
        (result ≡ 0) × HasServed (map string_bytes words.now) (K.written sink.old) (K.written sink.new) (W.started crew.old) (W.started crew.new) (W.ended crew.new) }
    ensures uncounted { result < 2 → snap.new ≡ snap.old }

    // A script is written, or run, without any input, unless memory was wanting.
    ensures generated { (set : SetToGenerate (map string_bytes words.now)) → (result ≡ exit_code Fault.NoMemory)
        ⊎ Generates result set.generation (C.moments clock) (K.written sink.old) (K.written sink.new) (K.faults sink.old) (K.faults sink.new) }
    ensures no_input { SetToGenerate (map string_bytes words.now) → source.new ≡ source.old }
    ensures no_served_input { SetToServe (map string_bytes words.now) → source.new ≡ source.old }

    // Words that are no command's, and doors that break a rule, end the run by this fault or for want of memory, and
    // leave the source as it was.
    ensures usage { result ≡ exit_code Fault.Usage → EndsAtStart result (map string_bytes words.now) (K.written sink.old) (K.written sink.new) (K.faults sink.old) (K.faults sink.new) }
    ensures fault { (fault : Fault) → Starts (map string_bytes words.now) (Err fault) → (result ≡ exit_code fault) ⊎ (result ≡ exit_code Fault.NoMemory) }
    ensures unread { (fault : Fault) → Starts (map string_bytes words.now) (Err fault) → source.new ≡ source.old }

    // Doors end it so, or a service that couldn't be, or a script for which there was no place: that is counted.
    ensures begin { result ≡ exit_code Fault.TooManyDoors →
        ((fault : ServeFault) × ((result ≡ exit_code (service_fault fault))
        × (IsCaused fault snap.old.places snap.new.places (E.faults edge.old) (E.faults edge.new) (K.faults sink.old) (K.faults sink.new) (W.faults crew.old) (W.faults crew.new)
        × HasFailed fault (map string_bytes words.now) (K.written sink.old) (K.written sink.new) (K.faults sink.old) (K.faults sink.new) (W.started crew.old) (W.started crew.new))))
        ⊎ EndsAtStart result (map string_bytes words.now) (K.written sink.old) (K.written sink.new) (K.faults sink.old) (K.faults sink.new)
        ⊎ (HasRisen snap.old.places snap.new.places × (SetToGenerate (map string_bytes words.now) ⊎ IfSome (S.left source.old) (λ input.
        GivesUp Ending.Place (map string_bytes words.now) input (C.moments clock) (S.left source.new) (K.written sink.old) (K.written sink.new) (K.faults sink.old) (K.faults sink.new)))) }

    // A script ends it where a worker had seen more than was published, which is counted.
    ensures above { result ≡ code_of Ending.Ahead →
        HasRisen snap.old.ahead snap.new.ahead × (SetToGenerate (map string_bytes words.now) ⊎ IfSome (S.left source.old) (λ input.
        GivesUp Ending.Ahead (map string_bytes words.now) input (C.moments clock) (S.left source.new) (K.written sink.old) (K.written sink.new) (K.faults sink.old) (K.faults sink.new))) }

    // Each other exit code comes only with its cause.
    ensures read { result ≡ exit_code Fault.ReadFailed → HasRisen (S.faults source.old) (S.faults source.new) }
    ensures write { result ≡ exit_code Fault.WriteFailed → HasRisen (K.faults sink.old) (K.faults sink.new) }
    ensures size { (result ≡ exit_code Fault.TooLong) ↔ (S.given source.old + MOST_INPUT < S.given source.new) }
    ensures limit { S.given source.new ≤ S.given source.old + (MOST_INPUT + MOST_PIECE) }
    ensures long { result ≡ exit_code Fault.TooLong → IfSome (S.left source.old) (λ input. MOST_INPUT < length input) }
    ensures exits { IsExit result }

    // What each of them writes.
    ensures read_line { result ≡ exit_code Fault.ReadFailed → WritesPiece (K.written sink.old) (fault_line Fault.ReadFailed) (K.written sink.new) (K.faults sink.old) (K.faults sink.new) }
    ensures front { result ≡ exit_code Fault.WriteFailed → (SetToServe (map string_bytes words.now) × TakesPart (K.written sink.old) ready_line (K.written sink.new)) ⊎ (SetToGenerate (map string_bytes words.now) ⊎ IfSome (S.left source.old) (λ input.
        WritesFront (map string_bytes words.now) input (C.moments clock) (K.written sink.old) (K.written sink.new))) }
    ensures nothing { result ≡ exit_code Fault.NoMemory → (SetToServe (map string_bytes words.now) × Takes (K.written sink.old) ready_line (K.written sink.new))
        ⊎ (K.written sink.new ≡ K.written sink.old) }
    ensures size_line { result ≡ exit_code Fault.TooLong → WritesPiece (K.written sink.old) (fault_line Fault.TooLong) (K.written sink.new) (K.faults sink.old) (K.faults sink.new) }

    // With a command's words and doors that break no rule, within the limit and without a fault, the text is written, or
    // memory was wanting.
    ensures complete { (setting : PlainSetting) → Starts (map string_bytes words.now) (Ok setting) →
        S.given source.new ≤ S.given source.old + MOST_INPUT →
        (HasRisen (S.faults source.old) (S.faults source.new) → ⊥) →
        (HasRisen (K.faults sink.old) (K.faults sink.new) → ⊥) →
        (HasRisen snap.old.places snap.new.places → ⊥) →
        (HasRisen snap.old.ahead snap.new.ahead → ⊥) →
        (HasRisen (E.faults edge.old) (E.faults edge.new) → ⊥) →
        (HasRisen (W.faults crew.old) (W.faults crew.new) → ⊥) → (result < 2) ⊎ (result ≡ exit_code Fault.NoMemory) }
    ensures source_later { S.faults source.old ≤ S.faults source.new }
    ensures sink_later { K.faults sink.old ≤ K.faults sink.new }
    ensures places { snap.old.places ≤ snap.new.places }
    ensures ahead { snap.old.ahead ≤ snap.new.ahead }
{
    let setting = match start(alloc, words) {
        Ok(setting) => setting,
        Err(fault) => return end(sink, fault),
    };
    if let Some((workers, conns, admin, polled)) = setting.service() {
        let Setting {
            controller,
            doors,
            task: _,
        } = setting;
        let service = Service {
            controller,
            doors,
            admin,
            workers,
            conns,
            polled,
        };
        return run_service::<L, A, U, P, V, G, K, C, E, W, R>(
            rt, alloc, service, sink, clock, edge, crew, snap,
        );
    }
    if let Some(generation) = setting.generation() {
        return run_generation(rt, alloc, generation, sink, &mut clock, snap);
    }
    let input = match read_all(alloc, source) {
        Ok(input) => input,
        Err(ReadFault::Failed) => return end(sink, Fault::ReadFailed),
        Err(ReadFault::TooLong) => return end(sink, Fault::TooLong),
        Err(ReadFault::NoMemory) => return end(sink, Fault::NoMemory),
    };
    match output_of(rt, alloc, setting, input.as_slice(), &mut clock, snap) {
        Ok(output) => finish(sink, &output),
        Err(_) => end(sink, Fault::NoMemory),
    }
}

// Serves, and writes the fault by which that ends, where it does.
fn run_service<
    L: Link + Send + 'static,
    A: Acceptor<Conn = L> + Send + 'static,
    U: Upstream + Send + 'static,
    P: PollLink + Send + 'static,
    V: PollUpstream + Send + 'static,
    G: Ring<Link = P, Up = V> + Send + 'static,
    K: Sink,
    C: Clock + Drop + Send + 'static,
    E: PollEdge<Accept = A, Up = U, Ring = G>,
    W: Crew,
    R: Wait + Threads + RandomSource + AllocGlobal + Clone + Drop + Send + Sync + 'static,
>(
    rt: &R,
    alloc: Global,
    service: Service,
    sink: &mut K,
    clock: C,
    edge: &mut E,
    crew: &mut W,
    snap: &mut SnapFaults,
) -> u8
    requires few { service.workers * length service.doors ≤ most_workers }
    ensures served { result < 2 → (result ≡ 0) × (Takes (K.written sink.old) ready_line (K.written sink.new)
        × ((W.started crew.new ≡ W.started crew.old + job_count service.workers service.doors) × (W.ended crew.new ≡ W.started crew.new))) }
    ensures fault { (result < 2 → ⊥) → (fault : ServeFault) × ((result ≡ exit_code (service_fault fault))
        × (IsCaused fault snap.old.places snap.new.places (E.faults edge.old) (E.faults edge.new) (K.faults sink.old) (K.faults sink.new) (W.faults crew.old) (W.faults crew.new)
        × ((so_far : Option (List ℕ)) × (Leaves fault (job_count service.workers service.doors) (K.written sink.old) so_far (W.started crew.old) (W.started crew.new)
        × WritesPiece so_far (fault_line (service_fault fault)) (K.written sink.new) (K.faults sink.old) (K.faults sink.new))))) }
    ensures uncounted { result < 2 → snap.new ≡ snap.old }
    ensures places { snap.old.places ≤ snap.new.places }
    ensures ahead { snap.new.ahead ≡ snap.old.ahead }
    ensures sink_later { K.faults sink.old ≤ K.faults sink.new }
{
    match serve::<L, A, U, P, V, G, E, W, C, K, R>(
        rt, alloc, service, sink, clock, edge, crew, snap,
    ) {
        Ok(()) => 0,
        Err(ServeFault::Place) => end(sink, Fault::NoPlace),
        Err(ServeFault::Bind) => end(sink, Fault::NotBound),
        Err(ServeFault::Write) => end(sink, Fault::WriteFailed),
        Err(ServeFault::Start) => end(sink, Fault::NotStarted),
        Err(ServeFault::NoMemory) => end(sink, Fault::NoMemory),
    }
}

// Writes a script, or runs it and writes the last line of that.
fn run_generation<K: Sink, C: Clock, R: Wait + RandomSource + AllocGlobal>(
    rt: &R,
    alloc: Global,
    words: GenerateWords,
    sink: &mut K,
    clock: &mut C,
    snap: &mut SnapFaults,
) -> u8
    requires some { 0 < words.routes }
    requires few { words.routes ≤ most_routes }
    requires requests { words.requests ≤ most_requests }
    ensures generated { (result ≡ exit_code Fault.NoMemory)
        ⊎ Generates result words (C.moments clock.old) (K.written sink.old) (K.written sink.new) (K.faults sink.old) (K.faults sink.new) }
    ensures ends { HasEnded result (K.faults sink.old) (K.faults sink.new) snap.old snap.new }
    ensures nothing { result ≡ exit_code Fault.NoMemory → K.written sink.new ≡ K.written sink.old }
    ensures sink_later { K.faults sink.old ≤ K.faults sink.new }
    ensures places { snap.old.places ≤ snap.new.places }
    ensures ahead { snap.old.ahead ≤ snap.new.ahead }
{
    match generation_output(rt, alloc, words, clock, snap) {
        Ok(output) => finish(sink, &output),
        Err(_) => end(sink, Fault::NoMemory),
    }
}

// Whether the fault's line can be written changes nothing of the exit code.
fn end<K: Sink>(sink: &mut K, fault: Fault) -> u8
    ensures exit { result ≡ exit_code fault }
    ensures exits { IsExit result }
    ensures line { WritesPiece (K.written sink.old) (fault_line fault) (K.written sink.new) (K.faults sink.old) (K.faults sink.new) }
    ensures nothing { fault_line fault ≡ [] → sink.new ≡ sink.old }
    ensures later { K.faults sink.old ≤ K.faults sink.new }
{
    let ending = fault.ending();
    let _ = write_all(sink, ending.line);
    ending.exit_code
}

// Where a script was given up, its exit code says so, whether its text can be written or not.
fn finish<K: Sink>(sink: &mut K, output: &Replayed) -> u8
    ensures finishes { Finishes result output.now.ending output.now.text (K.written sink.old) (K.written sink.new) (K.faults sink.old) (K.faults sink.new) }
    ensures code { (result < 2) ⊎ ((result ≡ exit_code Fault.WriteFailed) ⊎ ((result ≡ code_of Ending.Place) ⊎ (result ≡ code_of Ending.Ahead))) }
    ensures failed { result ≡ exit_code Fault.WriteFailed → HasRisen (K.faults sink.old) (K.faults sink.new) }
    ensures later { K.faults sink.old ≤ K.faults sink.new }
{
    let written = write_all(sink, output.text.bytes());
    match output.ending {
        Ending::Done(refused) => match written {
            Ok(()) => u8::from(refused),
            Err(_) => Fault::WriteFailed.ending().exit_code,
        },
        Ending::Place => NO_PLACE,
        Ending::Ahead => AHEAD,
    }
}
