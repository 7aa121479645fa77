// The readings of user types tell types, and carriers are told apart by equality alone.
ghost use Rattle.bpl_sorts.specs.ExchangeLaws.{ExchangesKeepValues};
ghost use Rattle.bpl_sorts.specs.ReadingLaws.{SortsTellTypes, TypesHaveTheirSorts, SortedExpressionsHaveTypes};
ghost use Rattle.bpl_sorts.specs.TypedModules.{PassingProgramsHaveTypes};

use bpl_resolve::laws::faultless_modules_are_typed;

/// Where two carriers of a user type are exchanged in an assignment, the value of each term with a
/// type is the exchanged one.
pub fn exchanges_keep_values()
    ensures { ExchangesKeepValues }
{}

/// The sorts of a type in the erased declarations, and in those told apart, together tell the type.
pub fn sorts_tell_types()
    ensures { SortsTellTypes }
{}

/// A written type has the sorts of the type for which it stands, where it has sorts.
pub fn types_have_their_sorts()
    ensures { TypesHaveTheirSorts }
{}

/// Where an expression has a sort in both readings, its term has a type.
pub fn sorted_expressions_have_types()
    ensures { SortedExpressionsHaveTypes }
{}

/// Where a program takes no user type for another type, each expression of its own declarations has
/// its type, in the module of the declarations without user types.
pub fn passing_programs_have_types()
    ensures { PassingProgramsHaveTypes }
{
    faultless_modules_are_typed();
}
