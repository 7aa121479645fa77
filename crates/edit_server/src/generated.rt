// What is answered where a program is generated.
ghost use Rattle.std.specs.Prelude.{◌≡◌, ◌≢◌, ◌-◌, ◌^◌, ◌<◌, ◌≤◌, [], ◌∷◌, ◌++◌, length, IfOk, OnOk, OnErr};
ghost use Rattle.std.specs.List.{list_all};
ghost use Rattle.tableau.specs.Search.{is_proved};
ghost use Rattle.bv_base.specs.Text.{ended};
ghost use Rattle.command_words.specs.Limits.{most_size};
ghost use Rattle.request_text.specs.Generated.{generate};
ghost use Rattle.board_core.specs.Board.{close, closed_now};
ghost use Rattle.goal_board.specs.Calls.{made};
ghost use Rattle.report_laws.specs.Summary.{verdicts_on, summary};
ghost use Rattle.check_report.specs.Questions.{AreAnswered, AreStarved};
ghost use Rattle.text_answers.specs.Answer.{done_if};
ghost use Rattle.edit_server.specs.Generated.{IsGenerated, IsGeneratedBy, IsStarvedBy};

use check_report::{Drawn, sum_up, sum_up_on};
use command_words::Command;
use goal_board::GoalBoard;
use program_opening::{Opened, ProcGoals, open};
use request_text::generate;
use std::alloc::{AllocError, Global};
use text_answers::answer::{Answer, done_if, line, refusal};

// The summary of this text, which the command generates, or the line of its fault.
fn summed(alloc: Global, command: &Command, text: &[u8]) -> Result<Answer, AllocError>
    requires made { text.now ≡ generate command.now.seed command.now.size }
    requires short { length text.now < 2 ^ 32 - 1 }
    ensures { IfOk result (λ a. IsGenerated command.now.turns command.now.seed command.now.size a.written.items a.status) }
{
    match open(alloc, text)? {
        Opened::Refused(fault) => refusal(alloc, &fault),
        Opened::Program(program) => {
            let drawn = Drawn {
                seed: command.seed,
                size: command.size,
                bytes: text.len() as u64,
            };
            let found = sum_up(alloc, drawn, &program.goals, command.turns)?;
            line(found.line, done_if(found.all_proved))
        }
    }
}

/// The summary of the program that the command generates, or the line of its fault.
pub fn generated(alloc: Global, command: &Command) -> Result<Answer, AllocError>
    requires { command.now.size ≤ most_size }
    ensures { IfOk result (λ a. IsGenerated command.now.turns command.now.seed command.now.size a.written.items a.status) }
{
    let text = generate(alloc, command.seed, command.size)?;
    summed(alloc, command, &text)
}

// The line of the summary of these procedures, by a board that is shared with workers.
fn line_on<B: GoalBoard>(
    alloc: Global,
    drawn: Drawn,
    board: &mut B,
    procs: &[ProcGoals],
    turns: u64,
) -> Result<Answer, AllocError>
    requires shared { B.workers ≢ 0 }
    ensures line { IfOk result (λ a. a.written.items ≡ ended (summary drawn.seed drawn.size drawn.bytes (verdicts_on turns procs.now))) }
    ensures status { IfOk result (λ a. a.status ≡ done_if (list_all is_proved (verdicts_on turns procs.now))) }
    ensures calls { OnOk result (AreAnswered turns procs.now (B.noted board.old) (B.noted board.new)) }
    ensures memory { OnErr result (AreStarved turns procs.now (B.noted board.old) (B.noted board.new)) }
{
    match sum_up_on(alloc, drawn, board, procs, turns) {
        Err(error) => Err(error),
        Ok(found) => line(found.line, done_if(found.all_proved)),
    }
}

// The summary of this text, which the command generates, by a board that is shared with workers; or the
// line of its fault.
fn summed_on<B: GoalBoard>(
    alloc: Global,
    command: &Command,
    board: &mut B,
    text: &[u8],
) -> Result<Answer, AllocError>
    requires made { text.now ≡ generate command.now.seed command.now.size }
    requires short { length text.now < 2 ^ 32 - 1 }
    requires shared { B.workers ≢ 0 }
    requires unnoted { B.noted board.old ≡ [] }
    ensures answer { IfOk result (λ a. IsGeneratedBy command.now.turns command.now.seed command.now.size (B.noted board.new ++ made close closed_now ∷ []) a.written.items a.status) }
    ensures memory { OnErr result (IsStarvedBy command.now.turns (B.noted board.new ++ made close closed_now ∷ [])) }
{
    match open(alloc, text) {
        Err(error) => Err(error),
        Ok(Opened::Refused(fault)) => refusal(alloc, &fault),
        Ok(Opened::Program(program)) => {
            let drawn = Drawn {
                seed: command.seed,
                size: command.size,
                bytes: text.len() as u64,
            };
            line_on(alloc, drawn, board, &program.goals, command.turns)
        }
    }
}

/// The summary of the program that the command generates, by a board that is shared with workers; or
/// the line of its fault.
pub fn generated_on<B: GoalBoard>(
    alloc: Global,
    command: &Command,
    board: &mut B,
) -> Result<Answer, AllocError>
    requires size { command.now.size ≤ most_size }
    requires shared { B.workers ≢ 0 }
    requires unnoted { B.noted board.old ≡ [] }
    ensures answer { IfOk result (λ a. IsGeneratedBy command.now.turns command.now.seed command.now.size (B.noted board.new ++ made close closed_now ∷ []) a.written.items a.status) }
    ensures memory { OnErr result (IsStarvedBy command.now.turns (B.noted board.new ++ made close closed_now ∷ [])) }
{
    match generate(alloc, command.seed, command.size) {
        Err(error) => Err(error),
        Ok(text) => summed_on(alloc, command, board, &text),
    }
}
