// Laws of edits.
ghost use Rattle.program_edits.specs.Laws.{OneEdit, TakenIsLeft};

/// A request makes one thing of declarations.
pub fn one_edit()
    ensures { OneEdit }
{}

/// What a request makes of declarations, where it isn't refused, is what it leaves of them: an open what
/// its text spells, an edit the puts in their places.
pub fn taken_is_left()
    ensures { TakenIsLeft }
{}
