// The parts of sums fall strictly. The functions do nothing; each one's contract is a law.
ghost use Rattle.linear_certs.specs.FallingLaws.{SumsFall, NormalSumsFall, LinearFormsFall, CombinedFactsFall, TighteningFalls};

/// A falling sum falls whatever joins it, and each sum of multiples falls.
pub fn sums_fall()
    ensures { SumsFall }
{}

/// In a normal form each sum falls.
pub fn normal_sums_fall()
    ensures { NormalSumsFall }
{}

/// The sum of a linear fact falls, where each sum in the fact does.
pub fn linear_forms_fall()
    ensures { LinearFormsFall }
{}

/// In a fact combined from two each sum falls, where each does in the two.
pub fn combined_facts_fall()
    ensures { CombinedFactsFall }
{}

/// In a tightened fact each sum falls, where each does in the fact.
pub fn tightening_falls()
    ensures { TighteningFalls }
{}
