//! What a line of a report says.
ghost use Rattle.report_text.specs.Correct.{CorrectIsProved};

/// Where the line `PROC correct` stands, whole, in a report's bytes, some procedure of that name is in
/// the report, and each of its verdicts is that a proof was found.
pub fn correct_is_proved()
    ensures { CorrectIsProved }
{}
