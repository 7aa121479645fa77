// The laws of revisions, of heads and of readings.
ghost use Rattle.body_revision.specs.Laws.{RevisionsGoTogether};
ghost use Rattle.body_revision.specs.ReadingLaws.{HeadsDeclareAll, ReadingsKeepBodies};

/// Where a program has no fault, and each of some revisions has no fault of its own, the program with all
/// of them has none, and its module has what is new of each.
pub fn revisions_go_together()
    ensures { RevisionsGoTogether }
{}

/// The heads of a program declare what it declares in the reading of its user types.
pub fn heads_declare_all()
    ensures { HeadsDeclareAll }
{}

/// A reading of a program with revisions is the reading, with these.
pub fn readings_keep_bodies()
    ensures { ReadingsKeepBodies }
{}
