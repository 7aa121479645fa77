// The free variables of terms and the definitions that they call.
ghost use Rattle.std.specs.Prelude.{◌≡◌, [], ◌++◌, OnOk};
ghost use Rattle.logic_core.specs.View.{trees_of, parts_of, patterns_of, each_items};
ghost use Rattle.logic_core.specs.Variables.{variables, variables_of_each, variables_of_parts, variables_of_patterns, calls, calls_of_each, calls_of_parts, calls_of_patterns};

use crate::term::{Node, Term};
use std::alloc::{AllocError, Global};

/// The numbers of free variables and of definitions, each as often as it stands in the text, in
/// the text's order: a definition before its arguments, and triggers before a binder's body.
#[derive(Drop)]
pub struct Mentioned {
    /// The free variables.
    pub variables: Vec<u64>,
    /// The definitions.
    pub definitions: Vec<u64>,
}

impl Mentioned {
    /// Nothing.
    pub fn nothing(alloc: Global) -> Mentioned
        ensures variables { result.variables.items ≡ [] }
        ensures definitions { result.definitions.items ≡ [] }
    {
        Mentioned {
            variables: Vec::new(alloc),
            definitions: Vec::new(alloc),
        }
    }

    /// What the term mentions comes behind.
    #[cycle(mention)]
    #[tactic(auto, using(crate::proofs::Mentioned::behind))]
    pub fn add_term(&mut self, term: &Term) -> Result<(), AllocError>
        ensures variables { OnOk result (self.new.variables.items ≡ self.old.variables.items ++ variables term.now) }
        ensures definitions { OnOk result (self.new.definitions.items ≡ self.old.definitions.items ++ calls term.now) }
    {
        match &term.node {
            Node::Num(_) | Node::Truth(_) | Node::Bound(_) => Ok(()),
            Node::Free(v) => Ok(self.variables.push(*v)?),
            Node::Sum(parts, _) => self.add_parts(parts),
            Node::Mul(a, b) | Node::Read(a, b) | Node::Eq(a, b) | Node::Le(a, b) => {
                self.add_term(a)?;
                self.add_term(b)
            }
            Node::Write(a, b, c) | Node::If(a, b, c) => {
                self.add_term(a)?;
                self.add_term(b)?;
                self.add_term(c)
            }
            Node::Call(f, terms) => {
                self.definitions.push(*f)?;
                self.add_terms(terms)
            }
            Node::Not(a) => self.add_term(a),
            Node::And(terms) | Node::Or(terms) => self.add_terms(terms),
            Node::ForAll(_, patterns, body) | Node::Exists(_, patterns, body) => {
                self.add_patterns(patterns)?;
                self.add_term(body)
            }
        }
    }

    /// What the terms mention comes behind.
    #[cycle(mention)]
    #[tactic(auto, using(crate::proofs::Mentioned::behind))]
    pub fn add_terms(&mut self, terms: &[Term]) -> Result<(), AllocError>
        ensures variables { OnOk result (self.new.variables.items ≡ self.old.variables.items ++ variables_of_each (trees_of terms.now)) }
        ensures definitions { OnOk result (self.new.definitions.items ≡ self.old.definitions.items ++ calls_of_each (trees_of terms.now)) }
    {
        for term in terms {
            self.add_term(term)?;
        }
        Ok(())
    }

    #[cycle(mention)]
    #[tactic(auto, using(crate::proofs::Mentioned::behind))]
    fn add_parts(&mut self, parts: &[(i128, Term)]) -> Result<(), AllocError>
        ensures variables { OnOk result (self.new.variables.items ≡ self.old.variables.items ++ variables_of_parts (parts_of parts.now)) }
        ensures definitions { OnOk result (self.new.definitions.items ≡ self.old.definitions.items ++ calls_of_parts (parts_of parts.now)) }
    {
        for part in parts {
            self.add_term(&part.1)?;
        }
        Ok(())
    }

    #[cycle(mention)]
    #[tactic(auto, using(crate::proofs::Mentioned::behind))]
    fn add_patterns(&mut self, patterns: &[Vec<Term>]) -> Result<(), AllocError>
        ensures variables { OnOk result (self.new.variables.items ≡ self.old.variables.items ++ variables_of_patterns (patterns_of (each_items patterns.now))) }
        ensures definitions { OnOk result (self.new.definitions.items ≡ self.old.definitions.items ++ calls_of_patterns (patterns_of (each_items patterns.now))) }
    {
        for pattern in patterns {
            self.add_terms(pattern)?;
        }
        Ok(())
    }
}
