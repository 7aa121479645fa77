//! What is promised of the definitions, over all modules.
ghost use Rattle.bpl_goto.specs.Kept.{RemoveGotosKeepsFailures, RemoveGotosStaysTyped, NothingRemoved};

/// In a typed module whose labels are distinct and whose gotos go forward, each procedure fails as
/// before, from each entry state and with each mark, and no goto is left in it.
pub fn remove_gotos_keeps_failures()
    ensures { RemoveGotosKeepsFailures }
{}

/// What the module's type keeps holds of the module without gotos.
pub fn remove_gotos_stays_typed()
    ensures { RemoveGotosStaysTyped }
{}

/// A module without gotos stays as it is.
pub fn nothing_removed()
    ensures { NothingRemoved }
{}
