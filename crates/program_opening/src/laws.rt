//! What is promised of the definitions, over all texts. Each function does nothing; its contract is
//! a law.
ghost use Rattle.program_opening.specs.Laws.{OpensOnce, OpensSomething, DeclaredModulesAreSound, ModulesAreSound, ProgramsAreSound};

use bpl_grammar::text_laws::{faults_are_found, programs_are_exact, programs_are_unique};
use bpl_resolve::laws::{faultless_gotos_go_forward, faultless_modules_are_typed};
use vc_build::laws::valid_goals_are_safe;

/// A text is one thing.
pub fn opens_once()
    ensures { OpensOnce }
{
    programs_are_unique();
    faults_are_found();
}

/// Every text is something.
pub fn opens_something()
    ensures { OpensSomething }
{
    programs_are_exact();
}

/// The module of declarations without a fault: it is typed, its gotos go forward, and no two of its
/// procedures have one name.
pub fn declared_modules_are_sound()
    ensures { DeclaredModulesAreSound }
{
    faultless_modules_are_typed();
    faultless_gotos_go_forward();
}

/// The module of a program that a text is: it is typed, its gotos go forward, and no two of its
/// procedures have one name.
pub fn modules_are_sound()
    ensures { ModulesAreSound }
{
    declared_modules_are_sound();
}

/// In it a procedure all of whose goals are valid is safe: no execution of it, its gotos as they
/// stand, fails from an entry state.
pub fn programs_are_sound()
    ensures { ProgramsAreSound }
{
    modules_are_sound();
    valid_goals_are_safe();
}
