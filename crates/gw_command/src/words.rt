ghost use Rattle.std.specs.Prelude.{◌≡◌, ◌*◌, ◌^◌, ◌<◌, ◌≤◌, true, false, codes, length, IfOk, map, option_map, string_bytes};
ghost use Rattle.clap.specs.Words.{app_of, rule_of, all_of, first_of, found_of, is_simple, rows_of, with_rule};
ghost use Rattle.clap.specs.Faults.{is_simple_and_free};
ghost use Rattle.gw_command.specs.Readings.{IsWithin, Reads, seen};
ghost use Rattle.gw_text.specs.model.Doors.{door_of, loopback_of};
ghost use Rattle.gw_requests.specs.Numbers.{number_below};
ghost use Rattle.gw_command.specs.Plain.{ReadsPlain};
ghost use Rattle.gw_command.specs.Words as words_of;

use clap::error::ErrorKind;
use clap::{Arg, ArgAction, ArgMatches};
use gw_requests::{number_below, quoted_bytes};
use gw_text::{Door, Socket, Text, TextFault, is_decimal};
use std::alloc::{AllocError, AllocFailed, Global};
use std::marker::Model;

/// The controller whose GatewayClasses are this program's, where the words name no other.
pub const DEFAULT_CONTROLLER: &str = "gateward.example/controller";

// The most workers of a replay, and of all doors together that are served.
const MOST_WORKERS: usize = 64;

// The most Routes of a script.
const MOST_ROUTES: usize = 4_000;

// The most requests of a script.
const MOST_REQUESTS: usize = 100_000;

// The most accepts after which a job ends.
const MOST_CONNS: usize = 1_000_000;

/// Why words are not read.
#[derive(Clone, Copy, Debug, PartialEq, Eq)]
pub enum UsageFault {
    /// They name no command, or the command doesn't take them.
    Usage,
    /// Memory ran out.
    NoMemory,
}

impl From<AllocError> for UsageFault {
    ghost use Rattle.gw_command.specs.declared.words.UsageFault.TheVariants.{NoMemory as OutOfMemory};

    ghost from_gives = { λ _ e. e ≡ OutOfMemory };

    fn from(_error: AllocError) -> UsageFault {
        UsageFault::NoMemory
    }
}

impl<T: Drop> From<AllocFailed<T>> for UsageFault {
    ghost use Rattle.gw_command.specs.declared.words.UsageFault.TheVariants.{NoMemory as OutOfMemory};

    ghost from_gives = { λ _ e. e ≡ OutOfMemory };

    fn from(_error: AllocFailed<T>) -> UsageFault {
        UsageFault::NoMemory
    }
}

/// What `status` is given: `[--controller TEXT] [DOOR]...`.
#[derive(Drop)]
pub struct StatusWords {
    /// The controller of the GatewayClasses that are this program's.
    pub controller: Text,
    /// The DOORs, in the order in which they are given.
    pub doors: Vec<Door>,
}

impl Model for StatusWords {
    ghost use Rattle.gw_command.specs.Words.{StatusWords as Plain};

    ghost Value = { Plain };

    ghost view = { λ s. record { controller = s.controller; doors = s.doors.items } };
}

/// What `explain` is given: `[--controller TEXT] [--at N] --request TEXT [DOOR]...`.
#[derive(Drop)]
pub struct ExplainWords {
    /// The controller of the GatewayClasses that are this program's.
    pub controller: Text,
    /// The number of a door.
    pub at: usize,
    /// The bytes of a request.
    pub request: Vec<u8>,
    /// The DOORs, in the order in which they are given.
    pub doors: Vec<Door>,
}

impl Model for ExplainWords {
    ghost use Rattle.gw_command.specs.Words.{ExplainWords as Plain};

    ghost Value = { Plain };

    ghost view = { λ s. record { controller = s.controller; at = s.at; request = s.request.items; doors = s.doors.items } };
}

/// What `replay` is given: `[--controller TEXT] [--workers N] [--polled] [DOOR]...`.
#[derive(Drop)]
pub struct ReplayWords {
    /// The controller of the GatewayClasses that are this program's.
    pub controller: Text,
    /// How many workers there are.
    pub workers: usize,
    /// Whether its connections are polled.
    pub polled: bool,
    /// The DOORs, in the order in which they are given.
    pub doors: Vec<Door>,
}

impl Model for ReplayWords {
    ghost use Rattle.gw_command.specs.Words.{ReplayWords as Plain};

    ghost Value = { Plain };

    ghost view = { λ s. record { controller = s.controller; workers = s.workers; polled = s.polled; doors = s.doors.items } };
}

/// What `generate` is given: `--seed N --routes N --requests N [--run]`.
#[derive(Drop)]
pub struct GenerateWords {
    /// The seed of a script.
    pub seed: u64,
    /// How many Routes the script has.
    pub routes: u32,
    /// How many requests it has.
    pub requests: u32,
    /// Whether it is run.
    pub runs: bool,
}

impl Model for GenerateWords {
    ghost use Rattle.gw_command.specs.Words.{GenerateWords as Plain};

    ghost Value = { Plain };

    ghost view = { λ s. record { seed = s.seed; routes = s.routes; requests = s.requests; runs = s.runs } };
}

/// What `serve` is given: `[--controller TEXT] [--workers N] [--conns N] --admin SOCKET [--polled] [DOOR]...`.
#[derive(Drop)]
pub struct ServeWords {
    /// The controller of the GatewayClasses that are this program's.
    pub controller: Text,
    /// How many workers each door has.
    pub workers: usize,
    /// After how many accepts a job ends. None: it doesn't end.
    pub conns: Option<u32>,
    /// The loopback socket of the admin endpoint.
    pub admin: Socket,
    /// Whether its connections are polled, many at once by each worker.
    pub polled: bool,
    /// The DOORs, in the order in which they are given.
    pub doors: Vec<Door>,
}

impl Model for ServeWords {
    ghost use Rattle.gw_command.specs.Words.{ServeWords as Plain};

    ghost Value = { Plain };

    ghost view = { λ s. record { controller = s.controller; workers = s.workers; conns = s.conns; admin = s.admin; polled = s.polled; doors = s.doors.items } };
}

/// A command with what it is given.
#[derive(Drop)]
pub enum Command {
    /// Prints the statuses of the objects that lines of events put.
    Status(StatusWords),
    /// Prints what becomes of a request at a door, by the objects that lines of events put.
    Explain(ExplainWords),
    /// Prints what the connections of a script are served, by the objects that its events put.
    Replay(ReplayWords),
    /// Prints a script that is drawn, or runs it.
    Generate(GenerateWords),
    /// Serves the connections of doors, by the objects that the admin endpoint is given.
    Serve(ServeWords),
}

/// The command of the words that follow the program's name. Help and the version are usage faults too.
#[tactic(auto, using(crate::proofs::Plain::plain_is_read))]
pub fn read_words(alloc: Global, words: &[String]) -> Result<Command, UsageFault>
    ensures value { Reads seen (words_of.command_of (map string_bytes words.now)) result }
    ensures within { IfOk result IsWithin }
    ensures plain { ReadsPlain (map string_bytes words.now) }
{
    match words {
        [name, ..] if name.as_str() == "status" => Ok(Command::Status(read_status(alloc, words)?)),
        [name, ..] if name.as_str() == "explain" => Ok(Command::Explain(read_explain(
            alloc, words,
        )?)),
        [name, ..] if name.as_str() == "replay" => Ok(Command::Replay(read_replay(alloc, words)?)),
        [name, ..] if name.as_str() == "generate" => {
            Ok(Command::Generate(read_generate(alloc, words)?))
        }
        [name, ..] if name.as_str() == "serve" => Ok(Command::Serve(read_serve(alloc, words)?)),
        _ => Err(UsageFault::Usage),
    }
}

#[tactic(auto, unfolding(crate::specs::Words::status_of))]
fn read_status(alloc: Global, words: &[String]) -> Result<StatusWords, UsageFault>
    ensures { Reads (λ s. s) (words_of.status_of (map string_bytes words.now)) result }
{
    let matches = matches_for(status_command(alloc)?, words)?;
    status_words(alloc, &matches)
}

#[tactic(auto, unfolding(crate::specs::Words::explain_of))]
fn read_explain(alloc: Global, words: &[String]) -> Result<ExplainWords, UsageFault>
    ensures value { Reads (λ s. s) (words_of.explain_of (map string_bytes words.now)) result }
    ensures door { IfOk result (λ s. s.at < length s.doors) }
{
    let matches = matches_for(explain_command(alloc)?, words)?;
    explain_words(alloc, &matches)
}

#[tactic(auto, unfolding(crate::specs::Words::replay_of))]
fn read_replay(alloc: Global, words: &[String]) -> Result<ReplayWords, UsageFault>
    ensures value { Reads (λ s. s) (words_of.replay_of (map string_bytes words.now)) result }
    ensures some { IfOk result (λ s. 0 < s.workers) }
    ensures few { IfOk result (λ s. s.workers ≤ words_of.most_workers) }
{
    let matches = matches_for(replay_command(alloc)?, words)?;
    replay_words(alloc, &matches)
}

#[tactic(auto, unfolding(crate::specs::Words::generate_of))]
fn read_generate(alloc: Global, words: &[String]) -> Result<GenerateWords, UsageFault>
    ensures value { Reads (λ s. s) (words_of.generate_of (map string_bytes words.now)) result }
    ensures some { IfOk result (λ s. 0 < s.routes) }
    ensures few { IfOk result (λ s. s.routes ≤ words_of.most_routes) }
    ensures requests { IfOk result (λ s. s.requests ≤ words_of.most_requests) }
{
    let matches = matches_for(generate_command(alloc)?, words)?;
    generate_words(&matches)
}

#[tactic(auto, unfolding(crate::specs::Words::serve_of))]
fn read_serve(alloc: Global, words: &[String]) -> Result<ServeWords, UsageFault>
    ensures value { Reads (λ s. s) (words_of.serve_of (map string_bytes words.now)) result }
    ensures some { IfOk result (λ s. 0 < s.workers) }
    ensures few { IfOk result (λ s. s.workers * length s.doors ≤ words_of.most_workers) }
{
    let matches = matches_for(serve_command(alloc)?, words)?;
    serve_words(alloc, &matches)
}

fn status_command<'a>(alloc: Global) -> Result<clap::Command<'a>, AllocError>
    ensures { IfOk result (λ c. app_of c ≡ words_of.status_app) }
{
    let command = clap::Command::new(alloc, "status");
    let with_controller = with_value(alloc, command, "controller")?;
    with_door(alloc, with_controller)
}

fn explain_command<'a>(alloc: Global) -> Result<clap::Command<'a>, AllocError>
    ensures { IfOk result (λ c. app_of c ≡ words_of.explain_app) }
{
    let command = clap::Command::new(alloc, "explain");
    let with_controller = with_value(alloc, command, "controller")?;
    let with_at = with_value(alloc, with_controller, "at")?;
    let with_request = with_value(alloc, with_at, "request")?;
    with_door(alloc, with_request)
}

fn replay_command<'a>(alloc: Global) -> Result<clap::Command<'a>, AllocError>
    ensures { IfOk result (λ c. app_of c ≡ words_of.replay_app) }
{
    let command = clap::Command::new(alloc, "replay");
    let with_controller = with_value(alloc, command, "controller")?;
    let with_workers = with_value(alloc, with_controller, "workers")?;
    let with_polled = with_flag(alloc, with_workers, "polled")?;
    with_door(alloc, with_polled)
}

fn generate_command<'a>(alloc: Global) -> Result<clap::Command<'a>, AllocError>
    ensures { IfOk result (λ c. app_of c ≡ words_of.generate_app) }
{
    let command = clap::Command::new(alloc, "generate");
    let with_seed = with_value(alloc, command, "seed")?;
    let with_routes = with_value(alloc, with_seed, "routes")?;
    let with_requests = with_value(alloc, with_routes, "requests")?;
    with_flag(alloc, with_requests, "run")
}

fn serve_command<'a>(alloc: Global) -> Result<clap::Command<'a>, AllocError>
    ensures { IfOk result (λ c. app_of c ≡ words_of.serve_app) }
{
    let command = clap::Command::new(alloc, "serve");
    let with_controller = with_value(alloc, command, "controller")?;
    let with_workers = with_value(alloc, with_controller, "workers")?;
    let with_conns = with_value(alloc, with_workers, "conns")?;
    let with_admin = with_value(alloc, with_conns, "admin")?;
    let with_polled = with_flag(alloc, with_admin, "polled")?;
    with_door(alloc, with_polled)
}

// The command with the option of this name.
fn with_value<'a>(
    alloc: Global,
    command: clap::Command<'a>,
    name: &'a str,
) -> Result<clap::Command<'a>, AllocError>
    ensures { IfOk result (λ c. app_of c ≡ with_rule (app_of command.entry) (words_of.value_rule name.entry.now)) }
{
    command.arg(value(alloc, name))
}

// The command with the flag of this name.
fn with_flag<'a>(
    alloc: Global,
    command: clap::Command<'a>,
    name: &'a str,
) -> Result<clap::Command<'a>, AllocError>
    ensures { IfOk result (λ c. app_of c ≡ with_rule (app_of command.entry) (words_of.flag_rule name.entry.now)) }
{
    command.arg(flag(alloc, name))
}

// The command with its DOORs.
fn with_door<'a>(alloc: Global, command: clap::Command<'a>) -> Result<clap::Command<'a>, AllocError>
    ensures { IfOk result (λ c. app_of c ≡ with_rule (app_of command.entry) words_of.door_rule) }
{
    command.arg(door(alloc))
}

fn value<'a>(alloc: Global, name: &'a str) -> Arg<'a>
    ensures rule { rule_of result ≡ words_of.value_rule name.entry.now }
    ensures local { result.global ≡ false }
{
    Arg::new(alloc, name).long(name).action(ArgAction::Set)
}

fn flag<'a>(alloc: Global, name: &'a str) -> Arg<'a>
    ensures rule { rule_of result ≡ words_of.flag_rule name.entry.now }
    ensures local { result.global ≡ false }
{
    Arg::new(alloc, name).long(name).action(ArgAction::SetTrue)
}

fn door<'a>(alloc: Global) -> Arg<'a>
    ensures rule { rule_of result ≡ words_of.door_rule }
    ensures local { result.global ≡ false }
{
    Arg::new(alloc, "door").action(ArgAction::Append)
}

// What the command finds in the words.
#[tactic(auto, unfolding(crate::specs::Words::found_in))]
fn matches_for<'a>(
    command: clap::Command<'a>,
    words: &'a [String],
) -> Result<ArgMatches<'a>, UsageFault>
    requires simple { is_simple (app_of command) ≡ true }
    requires free { is_simple_and_free (app_of command) ≡ true }
    ensures { Reads (λ m. rows_of (found_of m)) (words_of.found_in (app_of command.entry) (map string_bytes words.entry.now)) result }
{
    match command.try_get_matches_from(words) {
        Ok(matches) => Ok(matches),
        Err(error) => match error.kind() {
            ErrorKind::OutOfMemory => Err(UsageFault::NoMemory),
            _ => Err(UsageFault::Usage),
        },
    }
}

#[tactic(auto, unfolding(crate::specs::Words::status_in))]
fn status_words(alloc: Global, matches: &ArgMatches<'_>) -> Result<StatusWords, UsageFault>
    ensures { Reads (λ s. s) (words_of.status_in (rows_of (found_of matches.now))) result }
{
    let controller = controller(alloc, matches)?;
    let doors = doors(alloc, matches)?;
    Ok(StatusWords { controller, doors })
}

#[tactic(auto, unfolding(crate::specs::Words::explain_by))]
fn explain_words(alloc: Global, matches: &ArgMatches<'_>) -> Result<ExplainWords, UsageFault>
    ensures value { Reads (λ s. s) (words_of.explain_in (rows_of (found_of matches.now))) result }
    ensures door { IfOk result (λ s. s.at < length s.doors) }
{
    let request = request(alloc, matches)?;
    let doors = doors(alloc, matches)?;
    let at = at(matches, doors.len())?;
    let controller = controller(alloc, matches)?;
    Ok(ExplainWords {
        controller,
        at,
        request,
        doors,
    })
}

#[tactic(auto, unfolding(crate::specs::Words::replay_by))]
fn replay_words(alloc: Global, matches: &ArgMatches<'_>) -> Result<ReplayWords, UsageFault>
    ensures value { Reads (λ s. s) (words_of.replay_in (rows_of (found_of matches.now))) result }
    ensures some { IfOk result (λ s. 0 < s.workers) }
    ensures few { IfOk result (λ s. s.workers ≤ words_of.most_workers) }
{
    let workers = workers(matches)?;
    let polled = is_given(matches, "polled");
    let doors = doors(alloc, matches)?;
    let controller = controller(alloc, matches)?;
    Ok(ReplayWords {
        controller,
        workers,
        polled,
        doors,
    })
}

#[tactic(auto, unfolding(crate::specs::Words::generate_by))]
fn generate_words(matches: &ArgMatches<'_>) -> Result<GenerateWords, UsageFault>
    ensures value { Reads (λ s. s) (words_of.generate_in (rows_of (found_of matches.now))) result }
    ensures some { IfOk result (λ s. 0 < s.routes) }
    ensures few { IfOk result (λ s. s.routes ≤ words_of.most_routes) }
    ensures requests { IfOk result (λ s. s.requests ≤ words_of.most_requests) }
{
    let seed = seed(matches)?;
    let routes = routes(matches)?;
    let requests = requests(matches)?;
    Ok(GenerateWords {
        seed,
        routes,
        requests,
        runs: is_given(matches, "run"),
    })
}

#[tactic(auto, unfolding(crate::specs::Words::serve_by))]
fn serve_words(alloc: Global, matches: &ArgMatches<'_>) -> Result<ServeWords, UsageFault>
    ensures value { Reads (λ s. s) (words_of.serve_in (rows_of (found_of matches.now))) result }
    ensures some { IfOk result (λ s. 0 < s.workers) }
    ensures few { IfOk result (λ s. s.workers * length s.doors ≤ words_of.most_workers) }
{
    let workers = workers(matches)?;
    let conns = conns(matches)?;
    let admin = admin(alloc, matches)?;
    let doors = doors(alloc, matches)?;
    if !are_few(workers, doors.len()) {
        return Err(UsageFault::Usage);
    }
    let controller = controller(alloc, matches)?;
    Ok(ServeWords {
        controller,
        workers,
        conns,
        admin,
        polled: is_given(matches, "polled"),
        doors,
    })
}

// Whether so many doors may have so many workers each.
fn are_few(workers: usize, doors: usize) -> bool
    ensures { result ≡ words_of.are_few workers doors }
{
    match workers.checked_mul(doors) {
        Some(all) => all <= MOST_WORKERS,
        None => false,
    }
}

fn request(alloc: Global, matches: &ArgMatches<'_>) -> Result<Vec<u8>, UsageFault>
    ensures { Reads (λ v. v.items) (words_of.request_by (first_of (codes "request") (rows_of (found_of matches.now)))) result }
{
    match value_of(matches, "request") {
        Some(word) => quoted_bytes(alloc, word)?.ok_or(UsageFault::Usage),
        None => Err(UsageFault::Usage),
    }
}

fn at(matches: &ArgMatches<'_>, doors: usize) -> Result<usize, UsageFault>
    ensures value { Reads (λ n. n) (words_of.at_by doors (first_of (codes "at") (rows_of (found_of matches.now)))) result }
    ensures below { IfOk result (λ n. n < doors) }
{
    let text = value_of(matches, "at").unwrap_or("0");
    number_below(doors, text).ok_or(UsageFault::Usage)
}

fn workers(matches: &ArgMatches<'_>) -> Result<usize, UsageFault>
    ensures value { Reads (λ n. n) (words_of.workers_by (first_of (codes "workers") (rows_of (found_of matches.now)))) result }
    ensures some { IfOk result (λ n. 0 < n) }
    ensures few { IfOk result (λ n. n ≤ words_of.most_workers) }
{
    let text = value_of(matches, "workers").unwrap_or("1");
    match number_below(MOST_WORKERS + 1, text) {
        Some(number) if number > 0 => Ok(number),
        _ => Err(UsageFault::Usage),
    }
}

fn seed(matches: &ArgMatches<'_>) -> Result<u64, UsageFault>
    ensures { Reads (λ n. n) (words_of.seed_by (first_of (codes "seed") (rows_of (found_of matches.now)))) result }
{
    match value_of(matches, "seed") {
        Some(text) => read_seed(text),
        None => Err(UsageFault::Usage),
    }
}

#[tactic(auto, using(crate::proofs::Seeds::seed_parsed, crate::proofs::Seeds::no_digits))]
fn read_seed(text: &str) -> Result<u64, UsageFault>
    ensures { Reads (λ n. n) (number_below (2 ^ 64) text.now) result }
{
    if !is_decimal(text.as_bytes()) {
        return Err(UsageFault::Usage);
    }
    match text.parse::<u64>() {
        Ok(seed) => Ok(seed),
        Err(_) => Err(UsageFault::Usage),
    }
}

fn routes(matches: &ArgMatches<'_>) -> Result<u32, UsageFault>
    ensures value { Reads (λ n. n) (words_of.routes_by (first_of (codes "routes") (rows_of (found_of matches.now)))) result }
    ensures some { IfOk result (λ n. 0 < n) }
    ensures few { IfOk result (λ n. n ≤ words_of.most_routes) }
{
    let Some(text) = value_of(matches, "routes") else {
        return Err(UsageFault::Usage);
    };
    match number_below(MOST_ROUTES + 1, text) {
        Some(number) if number > 0 => Ok(number as u32),
        _ => Err(UsageFault::Usage),
    }
}

fn requests(matches: &ArgMatches<'_>) -> Result<u32, UsageFault>
    ensures value { Reads (λ n. n) (words_of.requests_by (first_of (codes "requests") (rows_of (found_of matches.now)))) result }
    ensures few { IfOk result (λ n. n ≤ words_of.most_requests) }
{
    let Some(text) = value_of(matches, "requests") else {
        return Err(UsageFault::Usage);
    };
    match number_below(MOST_REQUESTS + 1, text) {
        Some(number) => Ok(number as u32),
        None => Err(UsageFault::Usage),
    }
}

fn is_given(matches: &ArgMatches<'_>, name: &str) -> bool
    ensures { result ≡ words_of.is_given (first_of name.now (rows_of (found_of matches.now))) }
{
    match value_of(matches, name) {
        Some(text) => text == "true",
        None => false,
    }
}

fn conns(matches: &ArgMatches<'_>) -> Result<Option<u32>, UsageFault>
    ensures { Reads (λ n. n) (words_of.conns_by (first_of (codes "conns") (rows_of (found_of matches.now)))) result }
{
    let Some(text) = value_of(matches, "conns") else {
        return Ok(None);
    };
    match number_below(MOST_CONNS + 1, text) {
        Some(number) if number > 0 => Ok(Some(number as u32)),
        _ => Err(UsageFault::Usage),
    }
}

fn admin(alloc: Global, matches: &ArgMatches<'_>) -> Result<Socket, UsageFault>
    ensures { Reads (λ socket. socket) (words_of.admin_by (first_of (codes "admin") (rows_of (found_of matches.now)))) result }
{
    match value_of(matches, "admin") {
        Some(word) => read_loopback(alloc, word),
        None => Err(UsageFault::Usage),
    }
}

#[tactic(auto, unfolding(gw_text::specs::model::Doors::loopback_of))]
fn read_loopback(alloc: Global, word: &str) -> Result<Socket, UsageFault>
    ensures { Reads (λ socket. socket) (loopback_of word.now) result }
{
    match Socket::parse(alloc, word) {
        Ok(socket) if socket.a == 127 => Ok(socket),
        Err(TextFault::NoMemory) => Err(UsageFault::NoMemory),
        _ => Err(UsageFault::Usage),
    }
}

fn controller(alloc: Global, matches: &ArgMatches<'_>) -> Result<Text, AllocError>
    ensures { IfOk result (λ c. c ≡ words_of.controller_in (rows_of (found_of matches.now))) }
{
    let controller = value_of(matches, "controller").unwrap_or(DEFAULT_CONTROLLER);
    Text::of(alloc, controller)
}

fn doors(alloc: Global, matches: &ArgMatches<'_>) -> Result<Vec<Door>, UsageFault>
    ensures { Reads (λ v. v.items) (words_of.doors_of (words_of.doors_in (rows_of (found_of matches.now)))) result }
{
    match values_of(matches, "door") {
        Some(doors) => each_door(alloc, doors),
        None => Ok(Vec::new(alloc)),
    }
}

// The first value of an argument.
fn value_of<'a>(matches: &ArgMatches<'a>, name: &str) -> Option<&'a str>
    ensures { option_map (λ s. s.now) result ≡ first_of name.now (rows_of (found_of matches.now)) }
{
    matches.get_str(name)
}

// All values of an argument.
fn values_of<'m, 'a>(matches: &'m ArgMatches<'a>, name: &str) -> Option<&'m [&'a str]>
    ensures { option_map (λ s. map (λ v. v.now) s.now) result ≡ all_of name.now (rows_of (found_of matches.now)) }
{
    matches.get_strs(name)
}

fn each_door(alloc: Global, words: &[&str]) -> Result<Vec<Door>, UsageFault>
    ensures { Reads (λ v. v.items) (words_of.doors_of (map (λ word. word.now) words.now)) result }
{
    let mut doors = Vec::new(alloc);
    'words: for word in words {
        doors.push(read_door(alloc, word)?)?;
    }
    Ok(doors)
}

fn read_door(alloc: Global, word: &str) -> Result<Door, UsageFault>
    ensures { Reads (λ door. door) (door_of word.now) result }
{
    match Door::parse(alloc, word) {
        Ok(door) => Ok(door),
        Err(TextFault::Bad) => Err(UsageFault::Usage),
        Err(TextFault::NoMemory) => Err(UsageFault::NoMemory),
    }
}
