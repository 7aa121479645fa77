// New numbers for variables and definitions, one to one where they occur, keep sorts, values and validity.
ghost use Rattle.logic_laws.specs.RenamingLaws.{RenamingKeepsSorts, RenamingKeepsValues, RenamingKeepsValidity};

/// A term whose variables have the sorts of the old ones, over definitions renamed alike, has the old term's sort.
pub fn renaming_keeps_sorts()
    ensures { RenamingKeepsSorts }
{}

/// A term whose variables have the values of the old ones, over definitions renamed alike, has the old term's value.
pub fn renaming_keeps_values()
    ensures { RenamingKeepsValues }
{}

/// An obligation and its renamed one are valid together, where no two of its variables get one number.
pub fn renaming_keeps_validity()
    ensures { RenamingKeepsValidity }
{}
