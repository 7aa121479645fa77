// What sums of multiples of linear facts mean. The functions do nothing; each one's contract is a law.
ghost use Rattle.linear_certs.specs.LinearLaws.{CombiningAddsValues, CombiningKeepsSorts, CombinedFactsHold};

/// A sum of multiples has the sum of the multiples of the values.
pub fn combining_adds_values()
    ensures { CombiningAddsValues }
{}

/// A fact combined from formulas is a formula.
pub fn combining_keeps_sorts()
    ensures { CombiningKeepsSorts }
{}

/// A fact combined from facts that hold holds: an inequality is multiplied by a positive number, an
/// equation by any other than zero.
pub fn combined_facts_hold()
    ensures { CombinedFactsHold }
{}
