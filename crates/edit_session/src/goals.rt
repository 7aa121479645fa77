// Names, marks and questions of the goals that were built.
ghost use Rattle.std.specs.Prelude.{◌≡◌, ◌++◌, map, length, string_bytes, IfOk, OnOk};
ghost use Rattle.std.specs.Arc.{arc_value};
ghost use Rattle.edit_session.specs.Program.{question};
ghost use Rattle.edit_session.specs.Built.{questions_of};

use flow_core::Mark;
use obligation_text::Asked;
use std::alloc::{AllocError, Global};
use std::sync::Arc;
use vc_rebuild::{BuiltProc, KeptGoal};

/// The procedure's name.
pub fn name_of(proc: &BuiltProc) -> &str
    ensures { result.now ≡ proc.now.name }
{
    proc.name().text.as_str()
}

/// The names of the procedures.
pub fn names(alloc: Global, procs: &[BuiltProc]) -> Result<Vec<String>, AllocError>
    ensures { IfOk result (λ v. map string_bytes v.items ≡ map (λ b. b.name) procs.now) }
{
    let mut found = Vec::new(alloc);
    for proc in procs {
        found.push(String::from_str(alloc, name_of(proc))?)?;
    }
    Ok(found)
}

// The marks of its goals.
fn marks_of(alloc: Global, proc: &BuiltProc) -> Result<Vec<Mark>, AllocError>
    ensures { IfOk result (λ v. v.items ≡ map (λ g. g.mark) proc.now.goals) }
{
    let found = Vec::from_slice(alloc, proc.marks())?;
    Ok(found)
}

/// The marks of each procedure's goals.
pub fn marks(alloc: Global, procs: &[BuiltProc]) -> Result<Vec<Vec<Mark>>, AllocError>
    ensures { IfOk result (λ v. map (λ ms. ms.items) v.items ≡ map (λ b. map (λ g. g.mark) b.goals) procs.now) }
{
    let mut found = Vec::new(alloc);
    for proc in procs {
        found.push(marks_of(alloc, proc)?)?;
    }
    Ok(found)
}

/// How many goals it has.
pub fn count_of(proc: &BuiltProc) -> usize
    ensures { result ≡ length proc.now.goals }
{
    proc.marks().len()
}

// The same question in so many turns.
fn asked_in(
    alloc: Global,
    asked: &Arc<Asked, Global>,
    turns: u64,
) -> Result<Arc<Asked, Global>, AllocError>
    ensures { IfOk result (λ q. arc_value q ≡ record { obligation = (arc_value asked.now).obligation; turns = turns }) }
{
    if asked.turns() == turns {
        return Ok(Arc::try_clone(asked)?);
    }
    let obligation = Arc::try_clone(asked.obligation())?;
    let other = Asked::shared(alloc, obligation, turns)?;
    let shared = Arc::new(alloc, other)?;
    Ok(shared)
}

// The question whether the goal is proved in so many turns: the one that was made with it, as a rule.
fn question(alloc: Global, goal: &KeptGoal, turns: u64) -> Result<Arc<Asked, Global>, AllocError>
    ensures { IfOk result (λ q. arc_value q ≡ question turns goal.now) }
{
    asked_in(alloc, goal.asked(), turns)
}

// The questions of goals come behind.
fn push_questions(
    alloc: Global,
    found: &mut Vec<Arc<Asked, Global>>,
    goals: &[KeptGoal],
    turns: u64,
) -> Result<(), AllocError>
    ensures { OnOk result (map arc_value found.new.items ≡ map arc_value found.old.items ++ map (question turns) goals.now) }
{
    for goal in goals {
        found.push(question(alloc, goal, turns)?)?;
    }
    Ok(())
}

// The questions of its goals come behind.
fn push_questions_of(
    alloc: Global,
    found: &mut Vec<Arc<Asked, Global>>,
    proc: &BuiltProc,
    turns: u64,
) -> Result<(), AllocError>
    ensures { OnOk result (map arc_value found.new.items ≡ map arc_value found.old.items ++ map (question turns) proc.now.goals) }
{
    push_questions(alloc, found, proc.shared(), turns)?;
    Ok(())
}

/// The questions of all goals, procedure by procedure.
pub fn questions(
    alloc: Global,
    procs: &[BuiltProc],
    turns: u64,
) -> Result<Vec<Arc<Asked, Global>>, AllocError>
    ensures { IfOk result (λ v. map arc_value v.items ≡ questions_of turns procs.now) }
{
    let mut found = Vec::new(alloc);
    for proc in procs {
        push_questions_of(alloc, &mut found, proc, turns)?;
    }
    Ok(found)
}
