// The summary line.
ghost use Rattle.std.specs.Prelude.{◌≡◌, ◌≢◌, ◌++◌, map, length, decimal, IfOk, OnOk, OnErr};
ghost use Rattle.std.specs.List.{list_all};
ghost use Rattle.tableau.specs.RunView.{verdict_of};
ghost use Rattle.tableau.specs.Search.{is_proved};
ghost use Rattle.report_laws.specs.Summary.{drawn_part, verdicts_part, summary, verdicts_on};
ghost use Rattle.check_report.specs.Questions.{AreAnswered, AreStarved};

use crate::answering::verdicts_by;
use crate::counts::{number_of, verdicts_on};
use goal_board::GoalBoard;
use itoa::Buffer;
use program_opening::ProcGoals;
use report_text::all_proved;
use std::alloc::{AllocError, Global};
use tableau::ended::Verdict;

/// A generated text: the seed, how many procedures were asked for, and the bytes that it has.
#[derive(Clone, Copy, Drop)]
pub struct Drawn {
    /// What its random choices come from.
    pub seed: u32,
    /// How many procedures were asked for.
    pub size: u32,
    /// How many bytes its text has.
    pub bytes: u64,
}

/// The line, without a line feed, and whether every goal is proved.
#[derive(Drop)]
pub struct Summary {
    pub line: Vec<u8>,
    pub all_proved: bool,
}

// Appends a word with its number.
fn put(out: &mut Vec<u8>, word: &[u8], number: u64) -> Result<(), AllocError>
    ensures { OnOk result (out.new.items ≡ out.old.items ++ (word.now ++ decimal number)) }
{
    let mut buffer = Buffer::new();
    out.extend_from_slice(word)?;
    out.extend_from_slice(buffer.format(number).as_bytes())?;
    Ok(())
}

// What was generated.
fn put_drawn(out: &mut Vec<u8>, drawn: Drawn) -> Result<(), AllocError>
    ensures { OnOk result (out.new.items ≡ out.old.items ++ drawn_part drawn.seed drawn.size drawn.bytes) }
{
    put(out, b"gen seed=", u64::from(drawn.seed))?;
    put(out, b" size=", u64::from(drawn.size))?;
    put(out, b" bytes=", drawn.bytes)
}

// How many goals there are, and how many have each verdict.
fn put_verdicts(out: &mut Vec<u8>, verdicts: &[Verdict]) -> Result<(), AllocError>
    ensures { OnOk result (out.new.items ≡ out.old.items ++ verdicts_part (map verdict_of verdicts.now)) }
{
    put(out, b" goals=", verdicts.len() as u64)?;
    put(out, b" proved=", number_of(Verdict::Proved, verdicts))?;
    put(out, b" open=", number_of(Verdict::Open, verdicts))?;
    put(out, b" turns=", number_of(Verdict::Turns, verdicts))?;
    put(out, b" wide=", number_of(Verdict::Wide, verdicts))
}

// The line of these verdicts.
fn line(alloc: Global, drawn: Drawn, verdicts: &[Verdict]) -> Result<Vec<u8>, AllocError>
    ensures { IfOk result (λ v. v.items ≡ summary drawn.seed drawn.size drawn.bytes (map verdict_of verdicts.now)) }
{
    let mut out = Vec::new(alloc);
    put_drawn(&mut out, drawn)?;
    put_verdicts(&mut out, verdicts)?;
    Ok(out)
}

// The summary of these verdicts.
fn sum_verdicts(alloc: Global, drawn: Drawn, verdicts: &[Verdict]) -> Result<Summary, AllocError>
    ensures line { IfOk result (λ s. s.line.items ≡ summary drawn.seed drawn.size drawn.bytes (map verdict_of verdicts.now)) }
    ensures all { IfOk result (λ s. s.all_proved ≡ list_all is_proved (map verdict_of verdicts.now)) }
{
    Ok(Summary {
        line: line(alloc, drawn, verdicts)?,
        all_proved: all_proved(verdicts),
    })
}

/// The summary of what was generated, by the goals of its procedures: how many there are, and of how
/// many the search says in so many turns that they are proved, open, out of turns or too wide.
pub fn sum_up(
    alloc: Global,
    drawn: Drawn,
    procs: &[ProcGoals],
    turns: u64,
) -> Result<Summary, AllocError>
    ensures line { IfOk result (λ s. s.line.items ≡ summary drawn.seed drawn.size drawn.bytes (verdicts_on turns procs.now)) }
    ensures all { IfOk result (λ s. s.all_proved ≡ list_all is_proved (verdicts_on turns procs.now)) }
{
    let verdicts = verdicts_on(alloc, procs, turns)?;
    sum_verdicts(alloc, drawn, &verdicts)
}

/// The same summary, made of the answers that a board shows which is shared with workers: the goals are
/// opened on it, and then settled, by whomever.
pub fn sum_up_on<B: GoalBoard>(
    alloc: Global,
    drawn: Drawn,
    board: &mut B,
    procs: &[ProcGoals],
    turns: u64,
) -> Result<Summary, AllocError>
    requires shared { B.workers ≢ 0 }
    ensures line { IfOk result (λ s. s.line.items ≡ summary drawn.seed drawn.size drawn.bytes (verdicts_on turns procs.now)) }
    ensures all { IfOk result (λ s. s.all_proved ≡ list_all is_proved (verdicts_on turns procs.now)) }
    ensures calls { OnOk result (AreAnswered turns procs.now (B.noted board.old) (B.noted board.new)) }
    ensures memory { OnErr result (AreStarved turns procs.now (B.noted board.old) (B.noted board.new)) }
{
    match verdicts_by(alloc, board, procs, turns) {
        Err(error) => Err(error),
        Ok(verdicts) => match sum_verdicts(alloc, drawn, &verdicts) {
            Err(error) => Err(error),
            Ok(found) => Ok(found),
        },
    }
}
