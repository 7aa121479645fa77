// What is answered to a text.
ghost use Rattle.std.specs.Prelude.{◌≡◌, ◌-◌, ◌^◌, ◌<◌, length, true, IfOk};
ghost use Rattle.fault_text.specs.Written.{fault_line};
ghost use Rattle.bv_base.specs.Text.{ended};
ghost use Rattle.text_answers.specs.Modes.{answers_text};
ghost use Rattle.bpl_goto.specs.Forward.{AllGoForward};
ghost use Rattle.smoke_report.specs.Smoke.{points_large};
ghost use Rattle.text_answers.specs.Answer.{done_if, IsCheck, IsRecheck, IsSmoke, IsSmokeWithin};
ghost use Rattle.text_answers.specs.Answered.{IsAnswer};

use crate::status::Status;
use bpl_model::Module;
use check_report::report;
use command_words::{Command, Mode};
use fault_text::Written;
use program_opening::laws::modules_are_sound;
use program_opening::size::written_of_size;
use program_opening::{Opened, open};
use recheck_report::laws::accepted_is_safe;
use recheck_report::{cut, recheck};
use report_laws::laws::correct_is_safe;
use smoke_report::laws::unreachable_is_unreached;
use smoke_report::smoke;
use std::alloc::{AllocError, Global};
use vc_build::BuildFault;

/// What is written, and the status.
#[derive(Drop)]
pub struct Answer {
    pub written: Vec<u8>,
    pub status: Status,
}

/// One line, and the status.
pub fn line(mut line: Vec<u8>, status: Status) -> Result<Answer, AllocError>
    ensures written { IfOk result (λ a. a.written.items ≡ ended line.items) }
    ensures status { IfOk result (λ a. a.status ≡ status) }
{
    line.push(b'\n')?;
    Ok(Answer {
        written: line,
        status,
    })
}

/// The answer to a text with a fault.
pub fn refusal(alloc: Global, fault: &Written) -> Result<Answer, AllocError>
    ensures written { IfOk result (λ a. a.written.items ≡ ended (fault_line fault.now)) }
    ensures status { IfOk result (λ a. a.status ≡ Status.Refused) }
{
    line(fault.line(alloc)?, Status::Refused)
}

/// Done where all that was asked for holds.
pub fn done_if(all: bool) -> Status
    ensures { result ≡ done_if all }
{
    if all { Status::Done } else { Status::NotAll }
}

// The report on the program that the text is, or the line of its fault.
fn check(alloc: Global, text: &[u8], turns: u64) -> Result<Answer, AllocError>
    requires { length text.now < 2 ^ 32 - 1 }
    ensures { IfOk result (λ a. IsCheck turns text.now a.written.items a.status) }
{
    match open(alloc, text)? {
        Opened::Refused(fault) => refusal(alloc, &fault),
        Opened::Program(program) => {
            let found = report(alloc, &program.goals, turns)?;
            Ok(Answer {
                written: found.text,
                status: done_if(found.all_proved),
            })
        }
    }
}

// What is said of the proofs that stand behind the program, or the line of its fault.
fn review(alloc: Global, text: &[u8]) -> Result<Answer, AllocError>
    requires { length text.now < 2 ^ 32 - 1 }
    ensures { IfOk result (λ a. IsRecheck text.now a.written.items a.status) }
{
    // A law, on which the clause rests; it does nothing.
    accepted_is_safe();
    let parts = cut(text);
    match open(alloc, parts.program)? {
        Opened::Refused(fault) => refusal(alloc, &fault),
        Opened::Program(program) => {
            let found = recheck(alloc, &program.goals, parts.proofs)?;
            line(found.line, done_if(found.all_accepted))
        }
    }
}

// What is said of the points of the program, whose module this is, or the line of its fault.
fn smoke_module(alloc: Global, module: &Module, turns: u64) -> Result<Answer, AllocError>
    requires { AllGoForward «module».now }
    ensures { IfOk result (λ a. IsSmokeWithin turns «module».now (points_large «module».now) a.written.items a.status) }
{
    match smoke(alloc, module, turns) {
        Ok(found) => Ok(Answer {
            written: found.text,
            status: done_if(found.none_unreachable),
        }),
        Err(BuildFault::Large { what, number }) => {
            refusal(alloc, &written_of_size(alloc, what, number)?)
        }
        Err(BuildFault::Memory) => Err(AllocError),
    }
}

// What is said of the points of the program that the text is, or the line of its fault.
fn smoke_test(alloc: Global, text: &[u8], turns: u64) -> Result<Answer, AllocError>
    requires { length text.now < 2 ^ 32 - 1 }
    ensures { IfOk result (λ a. IsSmoke turns text.now a.written.items a.status) }
{
    // A law, on which the clause rests; it does nothing.
    modules_are_sound();
    match open(alloc, text)? {
        Opened::Refused(fault) => refusal(alloc, &fault),
        Opened::Program(program) => smoke_module(alloc, &program.module, turns),
    }
}

/// The answer of a command to the whole input.
pub fn answer_to(alloc: Global, command: &Command, text: &[u8]) -> Result<Answer, AllocError>
    requires text { answers_text command.now.mode ≡ true }
    requires short { length text.now < 2 ^ 32 - 1 }
    ensures { IfOk result (λ a. IsAnswer command.now text.now a.written.items a.status) }
{
    // Laws, on which the clause rests; they do nothing.
    correct_is_safe();
    accepted_is_safe();
    unreachable_is_unreached();
    modules_are_sound();
    match command.mode {
        Mode::Recheck => review(alloc, text),
        Mode::Smoke => smoke_test(alloc, text, command.turns),
        _ => check(alloc, text, command.turns),
    }
}
