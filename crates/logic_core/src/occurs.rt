// Whether a term occurs in another.
ghost use Rattle.std.specs.Prelude.{◌≡◌};
ghost use Rattle.logic_core.specs.View.{trees_of, parts_of, patterns_of, each_items};
ghost use Rattle.logic_terms.specs.Same.{same_term};
ghost use Rattle.logic_core.specs.Subterm.{occurs, has_any, has_part, has_pattern};

use crate::term::{Node, Term};

impl Term {
    /// Whether this term is the other one or stands anywhere in it, inside quantifiers and
    /// triggers too.
    #[cycle(occurs)]
    pub fn occurs_in(&self, term: &Term) -> bool
        ensures { result ≡ occurs self.now term.now }
    {
        if self.equals(term) {
            return true;
        }
        match &term.node {
            Node::Num(_) | Node::Truth(_) | Node::Free(_) | Node::Bound(_) => false,
            Node::Sum(parts, _) => self.occurs_in_part(parts),
            Node::Mul(a, b) | Node::Read(a, b) | Node::Eq(a, b) | Node::Le(a, b) => {
                self.occurs_in(a) || self.occurs_in(b)
            }
            Node::Write(a, b, c) | Node::If(a, b, c) => {
                self.occurs_in(a) || self.occurs_in(b) || self.occurs_in(c)
            }
            Node::Call(_, terms) | Node::And(terms) | Node::Or(terms) => self.occurs_in_any(terms),
            Node::Not(a) => self.occurs_in(a),
            Node::ForAll(_, patterns, body) | Node::Exists(_, patterns, body) => {
                self.occurs_in_pattern(patterns) || self.occurs_in(body)
            }
        }
    }

    // Whether it occurs in any of the terms.
    #[cycle(occurs)]
    fn occurs_in_any(&self, terms: &[Term]) -> bool
        ensures { result ≡ has_any (same_term self.now) (trees_of terms.now) }
    {
        for term in terms {
            if self.occurs_in(term) {
                return true;
            }
        }
        false
    }

    // Whether it occurs in any of the atoms.
    #[cycle(occurs)]
    fn occurs_in_part(&self, parts: &[(i128, Term)]) -> bool
        ensures { result ≡ has_part (same_term self.now) (parts_of parts.now) }
    {
        for part in parts {
            if self.occurs_in(&part.1) {
                return true;
            }
        }
        false
    }

    // Whether it occurs in any of the patterns.
    #[cycle(occurs)]
    fn occurs_in_pattern(&self, patterns: &[Vec<Term>]) -> bool
        ensures { result ≡ has_pattern (same_term self.now) (patterns_of (each_items patterns.now)) }
    {
        for pattern in patterns {
            if self.occurs_in_any(pattern) {
                return true;
            }
        }
        false
    }
}
