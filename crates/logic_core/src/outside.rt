// Whether a term stands in another outside quantifiers, where a free variable's value is all that
// it depends on.
ghost use Rattle.std.specs.Prelude.{◌≡◌};
ghost use Rattle.std.specs.List.{list_any};
ghost use Rattle.logic_core.specs.View.{trees_of, parts_of};
ghost use Rattle.logic_terms.specs.Same.{same_term};
ghost use Rattle.logic_core.specs.Subterm.{outside, outside_each, outside_parts};

use crate::term::{Node, Term};

impl Term {
    /// Whether this term is the other one or stands in it outside quantifiers.
    #[cycle(outside)]
    #[tactic(auto, using(crate::proofs::Anywhere::any_append))]
    pub fn stands_in(&self, term: &Term) -> bool
        ensures { result ≡ list_any (same_term self.now) (outside term.now) }
    {
        if self.equals(term) {
            return true;
        }
        match &term.node {
            Node::Num(_) | Node::Truth(_) | Node::Free(_) | Node::Bound(_) => false,
            Node::Sum(parts, _) => self.stands_in_part(parts),
            Node::Mul(a, b) | Node::Read(a, b) | Node::Eq(a, b) | Node::Le(a, b) => {
                self.stands_in(a) || self.stands_in(b)
            }
            Node::Write(a, b, c) | Node::If(a, b, c) => {
                self.stands_in(a) || self.stands_in(b) || self.stands_in(c)
            }
            Node::Call(_, terms) | Node::And(terms) | Node::Or(terms) => self.stands_in_any(terms),
            Node::Not(a) => self.stands_in(a),
            Node::ForAll(..) | Node::Exists(..) => false,
        }
    }

    // Whether it stands in any of the terms.
    #[cycle(outside)]
    #[tactic(auto, using(crate::proofs::Anywhere::any_append))]
    fn stands_in_any(&self, terms: &[Term]) -> bool
        ensures { result ≡ list_any (same_term self.now) (outside_each (trees_of terms.now)) }
    {
        for term in terms {
            if self.stands_in(term) {
                return true;
            }
        }
        false
    }

    // Whether it stands in any of the atoms.
    #[cycle(outside)]
    #[tactic(auto, using(crate::proofs::Anywhere::any_append))]
    fn stands_in_part(&self, parts: &[(i128, Term)]) -> bool
        ensures { result ≡ list_any (same_term self.now) (outside_parts (parts_of parts.now)) }
    {
        for part in parts {
            if self.stands_in(&part.1) {
                return true;
            }
        }
        false
    }
}
