// Laws of the canonical text, over the definitions alone.
ghost use Rattle.canonical_text.specs.Heads.{TextsTellDeclarations};
ghost use Rattle.canonical_text.specs.ReadBack.{ExpressionsAreReadBack, TypesAreReadBack};
ghost use Rattle.canonical_text.specs.ReadBackDecl.{DeclarationsAreReadBack};
ghost use Rattle.canonical_text.specs.RoundTrip.{CanonicalTextSpellsTheSame, CanonicalTextSpellsTheSameOrIsDeep, LexesToItsTokens, ProgramsAreReadBack, SameProgramsHaveOneText, SomeCanonicalTextIsDeep};

/// The canonical text of a type is read back as the same type but for places.
pub fn types_are_read_back()
    ensures { TypesAreReadBack }
{}

/// The canonical text of an expression is read back as the same expression but for places: its
/// parentheses suffice, and none of its parts takes in what follows.
pub fn expressions_are_read_back()
    ensures { ExpressionsAreReadBack }
{}

/// The canonical text of a declaration is read back as the same declaration but for places, where
/// none of its tokens lies too deep.
pub fn declarations_are_read_back()
    ensures { DeclarationsAreReadBack }
{}

/// The tokens of a program's canonical text are those of its declarations, one after another: none
/// merges with its neighbour.
pub fn canonical_tokens_are_found()
    ensures { LexesToItsTokens }
{}

/// A program's canonical text is read back as the same declarations but for places and spans,
/// where none of its tokens lies too deep.
pub fn programs_are_read_back()
    ensures { ProgramsAreReadBack }
{}

/// Where a text spells a program, and no token of its canonical text lies too deep, the canonical
/// text spells the same program but for places and spans.
pub fn canonical_text_spells_the_same()
    ensures { CanonicalTextSpellsTheSame }
{}

/// Where a text spells a program, the canonical text spells the same program but for places and
/// spans, or its fault is that a token lies too deep.
pub fn canonical_text_spells_the_same_or_is_deep()
    ensures { CanonicalTextSpellsTheSameOrIsDeep }
{}

/// That comes: a text spells a program, and a token of its canonical text lies too deep.
pub fn some_canonical_text_is_deep()
    ensures { SomeCanonicalTextIsDeep }
{}

/// Programs that are the same but for places and spans have the same canonical text, so what is
/// read of a canonical text is printed with the same bytes.
pub fn same_programs_have_one_text()
    ensures { SameProgramsHaveOneText }
{}

/// A text of a procedure's own declarations and of others without bodies tells all of them but for
/// places, and the others but for their bodies.
pub fn texts_tell_declarations()
    ensures { TextsTellDeclarations }
{}
