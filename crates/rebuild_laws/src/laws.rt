//! What renaming keeps. Each function does nothing; its contract is a law.
ghost use Rattle.rebuild_laws.specs.CanonicalForms.{RenamedHaveOneForm, RenamedHaveOneFormWithTriggers};
ghost use Rattle.rebuild_laws.specs.Procedures.{BodiesWithoutGotosGoAlike, CorrespondingHaveEqualGoals, CorrespondingHaveOneObligations};
ghost use Rattle.rebuild_laws.specs.DependencyTexts.{DependencyTextsTell};
ghost use Rattle.rebuild_laws.specs.ElseLists.{ElseListsMakeNoDifference};
ghost use Rattle.rebuild_laws.specs.Unplaced.{AlikeWhereverTheyStand};

use bpl_goto::laws::{remove_gotos_keeps_failures, remove_gotos_stays_typed};
use vc_build::laws::sequents_are_sorted;

/// Where an obligation is another one with new numbers for the definitions and variables that it
/// reaches, no two with one number, the two have one canonical form, and so one text and one key.
pub fn renamed_have_one_form()
    ensures { RenamedHaveOneForm }
{}

/// There, where the old numbers are known by the new ones, they have one canonical form once triggers
/// are chosen, too.
pub fn renamed_have_one_form_with_triggers()
    ensures { RenamedHaveOneFormWithTriggers }
{}

/// Bodies that go alike over new numbers, whatever their places, still do once their gotos are removed.
pub fn bodies_without_gotos_go_alike()
    ensures { BodiesWithoutGotosGoAlike }
{}

/// Of two procedures without gotos, each in a module of its own, of which the first is typed: where what
/// the one reaches of its module stands in the other's too, at new numbers and whatever its places, the
/// two have equal obligations.
pub fn corresponding_have_one_obligations()
    ensures { CorrespondingHaveOneObligations }
{
    sequents_are_sorted();
}

/// Of two procedures, each in a module of its own, of which the first is typed and its gotos go
/// forward: where what the one reaches of its module stands in the other's too, at new numbers and
/// whatever its places, their goals have equal obligations.
pub fn corresponding_have_equal_goals()
    ensures { CorrespondingHaveEqualGoals }
{
    corresponding_have_one_obligations();
    remove_gotos_stays_typed();
    remove_gotos_keeps_failures();
}

/// Where two programs without faults have procedures with one dependency text, these have the same
/// declaration and implementation but for places, and the same declarations that they reach, in order,
/// but for places and bodies of procedures.
pub fn dependency_texts_tell()
    ensures { DependencyTextsTell }
{}

/// Bodies that go alike over new numbers do so wherever they stand.
pub fn alike_wherever_they_stand()
    ensures { AlikeWhereverTheyStand }
{}

/// Whether an else list stands behind a branch, also an empty one, makes no difference to executions and
/// to the blocks of a graph; nor does it to obligations, by the law on procedures that correspond.
pub fn else_lists_make_no_difference()
    ensures { ElseListsMakeNoDifference }
{}
