//! What names stand for in programs whose dependency texts are equal. Each function does nothing; its contract is a law.
ghost use Rattle.rebuild_laws.specs.Resolved.{EqualDependencyTextsHaveEqualObligations};
ghost use Rattle.rebuild_laws.specs.Twins.{DependencyTextsMakeTwins};

use crate::laws::corresponding_have_equal_goals;
use bpl_resolve::laws::{faultless_gotos_go_forward, faultless_modules_are_typed};

/// Where two programs without faults have procedures with one dependency text, each declaration of the
/// one stands among those of the other but for places, and each that it reaches but for places and
/// bodies of procedures.
pub fn dependency_texts_make_twins()
    ensures { DependencyTextsMakeTwins }
{}

/// Two procedures with a body, of two programs without faults, whose dependency texts are equal have
/// equal obligations, one after another, wherever they stand in their texts.
pub fn equal_dependency_texts_have_equal_obligations()
    ensures { EqualDependencyTextsHaveEqualObligations }
{
    corresponding_have_equal_goals();
    faultless_modules_are_typed();
    faultless_gotos_go_forward();
}
