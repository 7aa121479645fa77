// Laws of canonical numbers and of texts.
ghost use Rattle.obligation_text.specs.Text.{TextsTellApart};
ghost use Rattle.obligation_text.specs.Asked.{KeysTellApart};
ghost use Rattle.obligation_text.specs.Canonical.{CanonicalKeeps, CanonicalIsCanonical, CanonicalStays};

/// Equal texts are texts of equal obligations.
pub fn texts_tell_apart()
    ensures { TextsTellApart }
{}

/// Questions with one key are one question.
pub fn keys_tell_apart()
    ensures { KeysTellApart }
{}

/// With canonical numbers an obligation stays well sorted, and is valid exactly where it was.
pub fn canonical_keeps()
    ensures { CanonicalKeeps }
{}

/// The canonical numbers of a well-sorted obligation are canonical: each definition of it is reached,
/// each variable occurs, and both have the numbers that a walk over it gives them.
pub fn canonical_is_canonical()
    ensures { CanonicalIsCanonical }
{}

/// An obligation whose numbers are canonical is its own canonical obligation.
pub fn canonical_stays()
    ensures { CanonicalStays }
{}
