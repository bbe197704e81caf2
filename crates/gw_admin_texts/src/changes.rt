//! The reply to a request that brings changes: its refused lines, and what came of all its lines.
ghost use Rattle.std.specs.Prelude.{◌≡◌, ◌+◌, ◌<◌, ◌≤◌, ℕ, List, [], ◌∷◌, ◌++◌, length, IfOk, OnOk, string_bytes};
ghost use Rattle.serde_json.specs.View.{view};
ghost use Rattle.gw_json.specs.Lines.{line_of};
ghost use Rattle.gw_report.specs.RunText.{refused_text};
ghost use Rattle.gw_admin_texts.specs.model.Submissions as submissions;
ghost use Rattle.gw_admin_texts.specs.Printing.{Continues, Prints};

use crate::reply::{Reply, Status};
use gw_json::{Path, Refusal, push_line};
use gw_report::refused_value;
use gw_resolve::Outcome;
use gw_store::{first_line, is_blank};
use gw_text::{NoMemory, Text};
use serde_json::{Value, json};
use std::alloc::Global;

/// What came of the lines of a request.
#[derive(Clone, Copy)]
pub struct Submitted<'s> {
    /// One answer for each line that isn't blank.
    pub answers: &'s [Result<Outcome, Refusal>],
    /// The place of the first change that was accepted.
    pub first: u64,
    /// How many changes were accepted.
    pub accepted: u64,
    /// How many changes are published.
    pub front: u64,
}

// The refused lines as they are printed, and how many there are.
#[derive(Drop)]
struct Printed {
    text: String,
    refused: u64,
}

/// The reply to a request with this body.
#[tactic(auto, unfolding(crate::specs::model::Submissions::changes_reply))]
pub fn changes_reply(
    alloc: Global,
    body: &[u8],
    submitted: Submitted<'_>,
) -> Result<Reply, NoMemory>
    ensures { IfOk result (λ reply. reply ≡ submissions.changes_reply body.now submitted.entry.answers.now submitted.entry.first submitted.entry.accepted submitted.entry.front) }
{
    let text = changes_text(alloc, body, submitted)?;
    Ok(Reply::of(status_of(submitted.answers), text))
}

fn changes_text(alloc: Global, body: &[u8], submitted: Submitted<'_>) -> Result<Text, NoMemory>
    ensures { IfOk result (λ text. text ≡ submissions.changes_text body.now submitted.entry.answers.now submitted.entry.first submitted.entry.accepted submitted.entry.front) }
{
    let Printed { mut text, refused } = refused_lines(alloc, body, submitted.answers)?;
    let value = summary_value(alloc, submitted, refused)?;
    push_line(alloc, &mut text, &value)?;
    Ok(Text::from_vec(text.into_bytes()))
}

// What came of all lines.
fn summary_value(alloc: Global, submitted: Submitted<'_>, refused: u64) -> Result<Value, NoMemory>
    ensures { IfOk result (λ v. view v ≡ submissions.summary_data submitted.entry.accepted submitted.entry.first submitted.entry.front refused (submissions.skipped_in submitted.entry.answers.now)) }
{
    json!(in alloc; {
        "accepted": submitted.accepted,
        "first": submitted.first,
        "front": submitted.front,
        "refused": refused,
        "skipped": skipped(submitted.answers)
    })
}

fn skipped(answers: &[Result<Outcome, Refusal>]) -> u64
    ensures { result ≡ submissions.skipped_in answers.now }
{
    let mut skipped = 0;
    'answers: for answer in answers {
        if is_skipped(answer) {
            skipped += 1;
        }
    }
    skipped
}

fn is_skipped(answer: &Result<Outcome, Refusal>) -> bool
    ensures { result ≡ submissions.is_skipped answer.now }
{
    matches!(answer, Ok(Outcome::Skipped))
}

// The status of the reply.
fn status_of(answers: &[Result<Outcome, Refusal>]) -> Status
    ensures { result ≡ submissions.status_of answers.now }
{
    if is_any_refused(answers) {
        return Status::UnprocessableContent;
    }
    if is_any_out_of_memory(answers) {
        return Status::ServiceUnavailable;
    }
    Status::Ok
}

fn is_any_refused(answers: &[Result<Outcome, Refusal>]) -> bool
    ensures { result ≡ submissions.is_any_refused answers.now }
{
    answers.iter().any(|answer| is_refused(answer))
}

fn is_any_out_of_memory(answers: &[Result<Outcome, Refusal>]) -> bool
    ensures { result ≡ submissions.is_any_out_of_memory answers.now }
{
    answers.iter().any(|answer| is_out_of_memory(answer))
}

// The line itself is why it wasn't taken.
fn is_refused(answer: &Result<Outcome, Refusal>) -> bool
    ensures { result ≡ submissions.is_refused answer.now }
{
    match answer {
        Ok(_) | Err(Refusal::NoMemory) => false,
        Err(_) => true,
    }
}

fn is_out_of_memory(answer: &Result<Outcome, Refusal>) -> bool
    ensures { result ≡ submissions.is_out_of_memory answer.now }
{
    matches!(answer, Err(Refusal::NoMemory))
}

fn refused_lines(
    alloc: Global,
    body: &[u8],
    answers: &[Result<Outcome, Refusal>],
) -> Result<Printed, NoMemory>
    ensures { IfOk result (λ printed. Prints (submissions.refused_lines body.now answers.now) printed) }
{
    let mut printed = Printed {
        text: String::new(alloc),
        refused: 0,
    };
    let mut number = 1u64;
    let mut left = answers;
    let mut rest = Some(body);
    'lines: while let Some(text) = rest {
        let (line, after) = first_line(text);
        left = printed.take_line(alloc, number, line, left)?;
        number = next_number(number)?;
        rest = after;
    }
    Ok(printed)
}

// The number of the next line. No memory holds lines that have none.
fn next_number(number: u64) -> Result<u64, NoMemory>
    ensures { IfOk result (λ next. next ≡ number + 1) }
{
    number.checked_add(1).ok_or(NoMemory)
}

impl Printed {
    // Prints the line of this number if it was refused, and gives the answers of the lines behind it.
    fn take_line<'a>(
        &mut self,
        alloc: Global,
        number: u64,
        line: &[u8],
        answers: &'a [Result<Outcome, Refusal>],
    ) -> Result<&'a [Result<Outcome, Refusal>], NoMemory>
        requires { self.old.refused < number }
        ensures prints { OnOk result (Continues (submissions.refused_from number (line.now ∷ []) answers.entry.now) self.old self.new) }
        ensures left { IfOk result (λ left. (lines : List (List ℕ)) → submissions.refused_from number (line.now ∷ lines) answers.entry.now
            ≡ submissions.refused_from number (line.now ∷ []) answers.entry.now ++ submissions.refused_from (number + 1) lines left.now) }
        ensures few { OnOk result (self.new.refused ≤ number) }
    {
        if is_blank(line) {
            return Ok(answers);
        }
        let Some((answer, left)) = answers.split_first() else {
            return Ok(answers);
        };
        self.take_answer(alloc, number, answer)?;
        Ok(left)
    }

    fn take_answer(
        &mut self,
        alloc: Global,
        number: u64,
        answer: &Result<Outcome, Refusal>,
    ) -> Result<(), NoMemory>
        requires { self.old.refused < number }
        ensures prints { OnOk result (Continues (submissions.refused_by_answer number answer.now) self.old self.new) }
        ensures few { OnOk result (self.new.refused ≤ number) }
    {
        let Err(refusal) = answer else {
            return Ok(());
        };
        let path = refusal.path().map(Path::as_str);
        let value = refused_value(alloc, number, refusal.number(), path)?;
        push_line(alloc, &mut self.text, &value)?;
        self.refused += 1;
        Ok(())
    }
}
