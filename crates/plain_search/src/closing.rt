// The rule close.
ghost use Rattle.std.specs.Prelude.{◌≡◌, [], find, option_map, Some, Ok};
ghost use Rattle.std.specs.Option.{option_copied};
ghost use Rattle.tableau_branch.specs.Applied.{Tries};
ghost use Rattle.tableau_branch.specs.Branch.{gives};
ghost use Rattle.logic_rules.specs.Closing.{are_opposed, pair_from, close_by, close};
ghost use Rattle.logic_rules.specs.View.{close_of};

use std::alloc::Global;
use tableau_branch::branch::Branch;
use tableau_branch::fact::Fact;
use tableau_branch::played::{Attempt, Ending, Move};

/// Whether one of the facts is the normal Not of the other.
pub fn are_opposed(f: &Fact, g: &Fact) -> bool
    ensures { result ≡ are_opposed f.now g.now }
{
    g.is_negation_of(f) || f.is_negation_of(g)
}

/// The first of the facts that is opposed to this one.
fn first_opposed<'a>(facts: &'a [Fact], fact: &Fact) -> Option<&'a Fact>
    ensures { option_copied result ≡ find (λ f. are_opposed f fact.now) facts.now }
{
    for other in facts {
        if are_opposed(other, fact) {
            return Some(other);
        }
    }
    None
}

/// The first pair of opposed facts by its later fact, and then by its earlier one. A fact that is
/// false pairs with itself.
pub fn closing_pair(facts: &[Fact]) -> Option<(&Fact, &Fact)>
    ensures { option_map (λ p. (p.0.now, p.1.now)) result ≡ pair_from [] facts.now }
{
    for (i, fact) in facts.iter().enumerate() {
        if let Some(earlier) = first_opposed(&facts[..i], fact) {
            return Some((earlier, fact));
        }
        if fact.term().is_truth(false) {
            return Some((fact, fact));
        }
    }
    None
}

/// The numbers by which two facts, of which the first has the smaller number, close the branch:
/// the first stands first, unless only it is the normal Not of the second.
pub fn close_by(f: &Fact, g: &Fact) -> (u64, u64)
    ensures { close_of (Some result) ≡ gives (close_by f.now g.now) }
{
    if f.number() == g.number() || g.is_negation_of(f) {
        (f.number(), g.number())
    } else {
        (g.number(), f.number())
    }
}

/// The numbers of two facts that close the branch, as a close names them.
fn closing_numbers(branch: &Branch) -> Option<(u64, u64)>
    ensures { close_of result ≡ close branch.now }
{
    match closing_pair(&branch.facts) {
        Some((f, g)) => {
            if f.number() <= g.number() {
                Some(close_by(f, g))
            } else {
                Some(close_by(g, f))
            }
        }
        None => None,
    }
}

/// A fact that is false, or two facts of which one is the normal Not of the other, close the branch.
pub fn close(alloc: Global, branch: Branch) -> Attempt
    ensures { Tries branch (Ok result) (close branch) }
{
    match closing_numbers(&branch) {
        Some((first, second)) => Attempt::Gives(Move {
            ending: Ending::Closes { first, second },
            made: Vec::new(alloc),
        }),
        None => Attempt::Passes(branch),
    }
}
