// The marks of clauses that are checked.
ghost use Rattle.std.specs.Prelude.{◌≡◌, ◌++◌, OnOk};
ghost use Rattle.bpl_model.specs.Contract.{call_checks, end_checks};
ghost use Rattle.vc_build.specs.Marks.{invariant_marks, marks_read};

use bpl_model::{GoalKind, Mark, Place, Spec, SpecForm};
use flow_core::Invariant;
use std::alloc::AllocError;

/// Those of what a procedure requires, for a call at this place, come behind.
pub fn push_required(marks: &mut Vec<Mark>, at: Place, specs: &[Spec]) -> Result<(), AllocError>
    ensures { OnOk result (marks.new.items ≡ marks.old.items ++ marks_read (call_checks at 0 specs.now)) }
{
    let mut k: u64 = 0;
    for spec in specs {
        if let SpecForm::Requires(false, _, _) = &spec.form {
            k = k.checked_add(1).ok_or(AllocError)?;
            marks.push(Mark {
                place: at,
                kind: GoalKind::Requires(k),
            })?;
        }
    }
    Ok(())
}

/// Those of what a procedure ensures come behind.
pub fn push_ensured(marks: &mut Vec<Mark>, specs: &[Spec]) -> Result<(), AllocError>
    ensures { OnOk result (marks.new.items ≡ marks.old.items ++ marks_read (end_checks specs.now)) }
{
    for spec in specs {
        if let SpecForm::Ensures(false, place, _) = &spec.form {
            marks.push(Mark {
                place: *place,
                kind: GoalKind::Ensures,
            })?;
        }
    }
    Ok(())
}

/// Those of a loop's invariants come behind, where it is reached first, or again.
pub fn push_invariants(
    marks: &mut Vec<Mark>,
    kind: GoalKind,
    invariants: &[Invariant],
) -> Result<(), AllocError>
    ensures { OnOk result (marks.new.items ≡ marks.old.items ++ invariant_marks kind invariants.now) }
{
    for invariant in invariants {
        if !invariant.free {
            marks.push(Mark {
                place: invariant.place,
                kind,
            })?;
        }
    }
    Ok(())
}
