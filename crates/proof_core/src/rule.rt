// The rules, and their words.
ghost use Rattle.std.specs.Prelude.{◌≡◌, Some};
ghost use Rattle.proof_core.specs.ProofView.{end_of};
ghost use Rattle.proof_core.specs.Rule.{rule_word, step_rule, end_rule};
ghost use Rattle.proof_core.specs.RuleView.{rule_of};
ghost use Rattle.proof_core.specs.View.{step_of};

use crate::proof::{End, Step};
use std::fmt;

/// The rules by which a node of a proof stands.
#[derive(Clone, Copy, PartialEq, Eq, Debug)]
pub enum Rule {
    /// A fact is false, or denies another.
    Close,
    /// The parts of an And, the cases of an Or or of an Eq of Bool, or the condition of an If.
    Split,
    /// A ForAll's body with terms for its variables.
    Instantiate,
    /// An Exists's body with new variables.
    Skolem,
    /// A term replaced by what a fact says that it is equal to.
    Replace,
    /// A call replaced by its definition's body.
    Unfold,
    /// A Read of a Write at a constant distance.
    Back,
    /// A Read of a Write by the order of the indices.
    Past,
    /// Maps that aren't equal differ at a new index.
    Differ,
    /// A sum of multiples of two linear facts.
    Combine,
    /// A linear fact divided and rounded.
    Tighten,
    /// A number is below, at or above zero.
    Trichotomy,
}

impl Rule {
    /// The rule's name.
    pub fn word(self) -> &'static str
        ensures { result.now ≡ rule_word (rule_of self) }
    {
        match self {
            Rule::Close => "close",
            Rule::Split => "split",
            Rule::Instantiate => "instantiate",
            Rule::Skolem => "skolem",
            Rule::Replace => "replace",
            Rule::Unfold => "unfold",
            Rule::Back => "back",
            Rule::Past => "past",
            Rule::Differ => "differ",
            Rule::Combine => "combine",
            Rule::Tighten => "tighten",
            Rule::Trichotomy => "trichotomy",
        }
    }
}

impl fmt::Display for Rule {
    ghost output = { λ r. Some (rule_word (rule_of r)) };

    fn fmt<W: fmt::Write>(&self, f: &mut fmt::Formatter<W>) -> fmt::Result {
        f.write_str(self.word())
    }
}

impl Step {
    /// The rule by which it stands.
    pub fn rule(&self) -> Rule
        ensures { rule_of result ≡ step_rule (step_of self.now) }
    {
        match self {
            Step::Split(_) => Rule::Split,
            Step::Instantiate { .. } => Rule::Instantiate,
            Step::Skolem(_) => Rule::Skolem,
            Step::Replace { .. } => Rule::Replace,
            Step::Unfold { .. } => Rule::Unfold,
            Step::Back { .. } => Rule::Back,
            Step::Differ(_) => Rule::Differ,
            Step::Combine { .. } => Rule::Combine,
            Step::Tighten(_) => Rule::Tighten,
        }
    }
}

impl End {
    /// The rule by which it stands.
    pub fn rule(&self) -> Rule
        ensures { rule_of result ≡ end_rule (end_of self.now) }
    {
        match self {
            End::Close { .. } => Rule::Close,
            End::Cases { .. } | End::Condition { .. } => Rule::Split,
            End::Past { .. } => Rule::Past,
            End::Trichotomy { .. } => Rule::Trichotomy,
        }
    }
}
