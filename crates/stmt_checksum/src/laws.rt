//! What is promised of the definitions.
ghost use Rattle.stmt_checksum.specs.Laws.{LinesHaveParts};

/// A declaration has as many parts as canonical lines: the names of each line stand in the part that
/// goes with it.
pub fn lines_have_parts()
    ensures { LinesHaveParts }
{}
