// The report on procedures, line by line.
ghost use Rattle.std.specs.Prelude.{◌≡◌, ◌++◌, map, string_bytes, IfOk, OnOk};
ghost use Rattle.tableau.specs.RunView.{verdict_of};
ghost use Rattle.tableau.specs.Search.{is_proved};
ghost use Rattle.std.specs.List.{list_all};
ghost use Rattle.report_text.specs.Report.{verdict_text, goal_line, goal_lines, last_words, last_line, proc_lines, report as report_of};
ghost use Rattle.bv_base.specs.Text.{text_of};

use crate::heads::write_head;
use bv_base::append_lines;
use flow_core::Mark;
use std::alloc::{AllocError, Global};
use tableau::ended::Verdict;

// How many bytes a line has behind the name, as a rule at most.
const ROOM: usize = 40;

// The verdict's word.
fn word(verdict: Verdict) -> &'static str
    ensures { result.now ≡ verdict_text (verdict_of verdict) }
{
    match verdict {
        Verdict::Proved => "proved",
        Verdict::Open => "open",
        Verdict::Turns => "turns",
        Verdict::Wide => "wide",
    }
}

/// Whether a proof was found.
pub fn is_proof(verdict: Verdict) -> bool
    ensures { result ≡ is_proved (verdict_of verdict) }
{
    match verdict {
        Verdict::Proved => true,
        Verdict::Open | Verdict::Turns | Verdict::Wide => false,
    }
}

/// Whether each of a procedure's goals is proved.
pub fn all_proved(verdicts: &[Verdict]) -> bool
    ensures { result ≡ list_all is_proved (map verdict_of verdicts.now) }
{
    for verdict in verdicts {
        if !is_proof(*verdict) {
            return false;
        }
    }
    true
}

// A goal's line.
fn goal(alloc: Global, name: &str, mark: &Mark, verdict: Verdict) -> Result<String, AllocError>
    ensures { IfOk result (λ s. string_bytes s ≡ goal_line name.now mark.now (verdict_of verdict)) }
{
    let mut out = String::with_capacity(alloc, name.len().saturating_add(ROOM))?;
    write_head(&mut out, name, mark)?;
    out.push_str(" ")?;
    out.push_str(word(verdict))?;
    Ok(out)
}

// Whether the procedure is correct, in a report's words.
fn ending(verdicts: &[Verdict]) -> &'static str
    ensures { result.now ≡ last_words (map verdict_of verdicts.now) }
{
    if all_proved(verdicts) {
        " correct"
    } else {
        " not proved"
    }
}

// The line that says whether the procedure is correct.
fn last(alloc: Global, name: &str, verdicts: &[Verdict]) -> Result<String, AllocError>
    ensures { IfOk result (λ s. string_bytes s ≡ last_line name.now (map verdict_of verdicts.now)) }
{
    let mut out = String::with_capacity(alloc, name.len().saturating_add(ROOM))?;
    out.push_str(name)?;
    out.push_str(ending(verdicts))?;
    Ok(out)
}

// Appends the lines of a procedure's goals.
fn push_goals(
    alloc: Global,
    lines: &mut Vec<String>,
    name: &str,
    marks: &[Mark],
    verdicts: &[Verdict],
) -> Result<(), AllocError>
    ensures { OnOk result (map string_bytes lines.new.items ≡ map string_bytes lines.old.items ++ goal_lines name.now marks.now (map verdict_of verdicts.now)) }
{
    for i in 0..marks.len().min(verdicts.len()) {
        lines.push(goal(alloc, name, &marks[i], verdicts[i])?)?;
    }
    Ok(())
}

/// Appends a procedure's lines: one for each of its goals, by its mark and verdict, and then whether it is
/// correct.
#[tactic(auto, using(crate::proofs::Ends::one_behind))]
pub fn push_proc(
    alloc: Global,
    lines: &mut Vec<String>,
    name: &str,
    marks: &[Mark],
    verdicts: &[Verdict],
) -> Result<(), AllocError>
    ensures { OnOk result (map string_bytes lines.new.items ≡ map string_bytes lines.old.items ++ proc_lines name.now marks.now (map verdict_of verdicts.now)) }
{
    push_goals(alloc, lines, name, marks, verdicts)?;
    lines.push(last(alloc, name, verdicts)?)?;
    Ok(())
}

// The lines as bytes.
fn bytes_of(alloc: Global, lines: Vec<String>) -> Result<Vec<Vec<u8>>, AllocError>
    ensures { IfOk result (λ v. map (λ l. l.items) v.items ≡ map string_bytes lines.items) }
{
    let mut found = Vec::with_capacity(alloc, lines.len())?;
    for line in lines {
        found.push(line.into_bytes())?;
    }
    Ok(found)
}

/// The lines of a report, in order: for each procedure, by its name, one for each of its goals, by its
/// mark and verdict, and then `PROC correct`, exactly where all its verdicts are `Proved`, or else
/// `PROC not proved`. What stands in one of the lists alone has no line.
pub fn report(
    alloc: Global,
    names: &[String],
    marks: &[Vec<Mark>],
    verdicts: &[Vec<Verdict>],
) -> Result<Vec<Vec<u8>>, AllocError>
    ensures { IfOk result (λ v. map (λ l. l.items) v.items ≡ report_of (map string_bytes names.now) (map (λ ms. ms.items) marks.now) (map (λ vs. map verdict_of vs.items) verdicts.now)) }
{
    let mut lines = Vec::new(alloc);
    for i in 0..names.len().min(marks.len()).min(verdicts.len()) {
        push_proc(
            alloc,
            &mut lines,
            names[i].as_str(),
            marks[i].as_slice(),
            verdicts[i].as_slice(),
        )?;
    }
    bytes_of(alloc, lines)
}

/// The bytes of lines: each is ended by a line feed.
pub fn text(alloc: Global, lines: &[Vec<u8>]) -> Result<Vec<u8>, AllocError>
    ensures { IfOk result (λ v. v.items ≡ text_of (map (λ l. l.items) lines.now)) }
{
    let mut out = Vec::new(alloc);
    append_lines(&mut out, lines)?;
    Ok(out)
}
