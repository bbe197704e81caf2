ghost use Rattle.std.specs.Prelude.{◌≡◌, ◌<◌, ◌≤◌, ◌⊎◌, Some, None, length, map, string_bytes, IfOk, IfErr, IfSome};
ghost use Rattle.gw_text.specs.model.Doors.{door_fault};
ghost use Rattle.gw_command.specs.Faults.{IsExitAtStart, exit_code};
ghost use Rattle.gw_command.specs.SeenTasks.{seen_task};
ghost use Rattle.gw_command.specs.Starts.{IsGeneration, IsService, a_generation, a_service, IsSetting, IsStart, IsStartBy, IsWithin, with_rule};
ghost use Rattle.gw_command.specs.Words as commands;

use crate::fault::Fault;
use crate::task::Task;
use crate::words::{
    Command, DEFAULT_CONTROLLER, ExplainWords, GenerateWords, StatusWords, UsageFault, read_words,
};
use gw_requests::whole_request;
use gw_text::{Door, DoorFault, Doors, Socket, Text};
use std::alloc::Global;
use std::marker::Model;

/// What the program is set to do by its words.
#[derive(Drop)]
pub struct Setting {
    /// The name by which a GatewayClass chooses this controller.
    pub controller: Text,
    pub doors: Doors,
    pub task: Task,
}

impl Model for Setting {
    ghost use Rattle.gw_command.specs.SeenTasks.{seen_task};
    ghost use Rattle.gw_command.specs.Starts.{Setting as Plain};

    ghost Value = { Plain };

    ghost view = { λ s. record { controller = s.controller; doors = s.doors; task = seen_task s.task } };
}

impl Setting {
    /// Where it is set to serve: how many workers each door has, after how many accepts a job ends, the socket of the admin endpoint, and
    /// whether connections are polled.
    pub fn service(&self) -> Option<(usize, Option<u32>, Socket, bool)>
        ensures some { IfSome result (λ s. self.now.task ≡ a_service s.0 s.1 s.2 s.3) }
        ensures none { result ≡ None → IsService self.now.task → ⊥ }
    {
        match &self.task {
            Task::Serve(workers, conns, admin, polled) => {
                Some((*workers, *conns, *admin, *polled))
            }
            _ => None,
        }
    }

    /// Where it is set to write or to run a script: of which it is.
    pub fn generation(&self) -> Option<GenerateWords>
        ensures some { IfSome result (λ words. self.now.task ≡ a_generation words) }
        ensures none { result ≡ None → IsGeneration self.now.task → ⊥ }
    {
        match &self.task {
            Task::Generate(words) => Some(GenerateWords {
                seed: words.seed,
                routes: words.routes,
                requests: words.requests,
                runs: words.runs,
            }),
            _ => None,
        }
    }
}

/// The setting of the words that follow the program's name.
#[tactic(auto, unfolding(crate::specs::Starts::Starts))]
pub fn start(alloc: Global, words: &[String]) -> Result<Setting, Fault>
    ensures start { IsStart (map string_bytes words.now) result }
    ensures within { IfOk result (λ s. IsWithin s.task s.doors) }
    ensures fault { IfErr result (λ fault. IsExitAtStart (exit_code fault) ⊎ (fault ≡ Fault.NoMemory)) }
{
    match read_words(alloc, words) {
        Ok(Command::Status(StatusWords { controller, doors })) => {
            with_doors(alloc, controller, doors, Task::Status)
        }
        Ok(Command::Explain(words)) => explanation(alloc, words),
        Ok(Command::Replay(words)) => {
            let task = Task::Replay(words.workers, words.polled);
            with_doors(alloc, words.controller, words.doors, task)
        }
        Ok(Command::Generate(words)) => generation(alloc, words),
        Ok(Command::Serve(words)) => {
            let task = Task::Serve(words.workers, words.conns, words.admin, words.polled);
            with_doors(alloc, words.controller, words.doors, task)
        }
        Err(UsageFault::Usage) => Err(Fault::Usage),
        Err(UsageFault::NoMemory) => Err(Fault::NoMemory),
    }
}

// The setting of a request to be explained: its bytes must be one whole request.
fn explanation(alloc: Global, words: ExplainWords) -> Result<Setting, Fault>
    requires { words.at < length words.doors }
    ensures start { IsStartBy (Some (commands.explain words)) result }
    ensures within { IfOk result (λ s. IsWithin s.task s.doors) }
    ensures fault { IfErr result (λ fault. IsExitAtStart (exit_code fault) ⊎ (fault ≡ Fault.NoMemory)) }
{
    match whole_request(alloc, words.request.as_slice()) {
        Ok(Some(request)) => {
            let task = Task::Explanation(words.at, request);
            with_doors(alloc, words.controller, words.doors, task)
        }
        Ok(None) => Err(Fault::Usage),
        Err(_) => Err(Fault::NoMemory),
    }
}

// The setting of a script, which has a door of its own.
fn generation(alloc: Global, words: GenerateWords) -> Result<Setting, Fault>
    requires some { 0 < words.routes }
    requires few { words.routes ≤ commands.most_routes }
    requires requests { words.requests ≤ commands.most_requests }
    ensures start { IsStartBy (Some (commands.generate words)) result }
    ensures within { IfOk result (λ s. IsWithin s.task s.doors) }
    ensures fault { IfErr result (λ fault. IsExitAtStart (exit_code fault) ⊎ (fault ≡ Fault.NoMemory)) }
{
    match Text::of(alloc, DEFAULT_CONTROLLER) {
        Ok(controller) => with_doors(alloc, controller, Vec::new(alloc), Task::Generate(words)),
        Err(_) => Err(Fault::NoMemory),
    }
}

fn with_doors(
    alloc: Global,
    controller: Text,
    doors: Vec<Door>,
    task: Task,
) -> Result<Setting, Fault>
    ensures start { IsSetting (with_rule (door_fault doors.items) controller doors.items (seen_task task)) result }
    ensures within { IsWithin (seen_task task) doors.items → IfOk result (λ s. IsWithin s.task s.doors) }
    ensures fault { IfErr result (λ fault. IsExitAtStart (exit_code fault) ⊎ (fault ≡ Fault.NoMemory)) }
{
    match Doors::new(alloc, doors) {
        Ok(doors) => Ok(Setting {
            controller,
            doors,
            task,
        }),
        Err(DoorFault::TooManyDoors) => Err(Fault::TooManyDoors),
        Err(DoorFault::TwoAddresses) => Err(Fault::TwoAddresses),
        Err(DoorFault::DoorTwice) => Err(Fault::DoorTwice),
        Err(DoorFault::NoMemory) => Err(Fault::NoMemory),
    }
}
