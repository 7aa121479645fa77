// The normal form keeps what a term means.
ghost use Rattle.logic_laws.specs.Divisors.{PartsGcdIsGreatest};
ghost use Rattle.logic_laws.specs.NormalLaws.{NormalKeepsValues, NormalKeepsTruth, NegatedIsNot, TighteningKeepsSorts, TighteningKeepsValues};

/// A well-sorted term and its normal form have the same value.
pub fn normal_keeps_values()
    ensures { NormalKeepsValues }
{}

/// A formula holds exactly where its normal form does.
pub fn normal_keeps_truth()
    ensures { NormalKeepsTruth }
{}

/// The normal `Not` of a formula has the value of its `Not`.
pub fn negated_is_not()
    ensures { NegatedIsNot }
{}

/// A tightened formula is a formula.
pub fn tightening_keeps_sorts()
    ensures { TighteningKeepsSorts }
{}

/// A formula and its tightened form have the same value.
pub fn tightening_keeps_values()
    ensures { TighteningKeepsValues }
{}

/// The divisor by which a fact is tightened is the greatest that its coefficients have in common.
pub fn divisor_is_greatest()
    ensures { PartsGcdIsGreatest }
{}
