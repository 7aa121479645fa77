// Reading and writing tables.
ghost use Rattle.logic_laws.specs.TableLaws.{WritesAreRead, OthersStay, ReadsDecideTables};

/// At the index that was written stands what was written.
pub fn writes_are_read()
    ensures { WritesAreRead }
{}

/// Elsewhere stands what stood there before.
pub fn others_stay()
    ensures { OthersStay }
{}

/// Tables of one sort are equal where they agree at every index.
pub fn reads_decide_tables()
    ensures { ReadsDecideTables }
{}
