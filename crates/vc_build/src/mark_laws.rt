//! What is promised of the definitions, over all modules.
ghost use Rattle.vc_build.specs.MarkLaws.{GoalsHaveTheirMarks};

/// The goals of a procedure have, one by one, the marks of its text.
#[tactic(auto, using(crate::proofs::TextMarks::goals_have_their_marks))]
pub fn goals_have_their_marks()
    ensures { GoalsHaveTheirMarks }
{}
