// The hashes of the Reads and the Calls in terms.
ghost use Rattle.std.specs.Prelude.{◌≡◌, [], ◌∷◌, ◌++◌, IfOk, OnOk};
ghost use Rattle.logic_core.specs.View.{trees_of, parts_of, patterns_of, each_items};
ghost use Rattle.tableau_branch.specs.Applications.{applications, applications_of_each, applications_of_parts, applications_of_patterns};
ghost use Rattle.term_bank.specs.Hash.{mixed, number_hash, hash_of, hash_of_each, hash_of_parts, hash_of_patterns};

use logic_core::term::{Node, Term};
use std::alloc::{AllocError, Global};
use term_bank::hash::hash;

/// The hashes of the Reads and the Calls in terms, each as often as it stands there, those within it
/// before it.
#[derive(Drop)]
pub struct Applications {
    /// The hashes.
    pub hashes: Vec<u64>,
}

// The multiplier of the hashes.
const SPREAD: u64 = 11_400_714_819_323_198_485;

// One more number in a hash.
#[tactic(auto, unfolding(term_bank::specs::Hash::mixed))]
fn mix(hash: u64, number: u64) -> u64
    ensures { result ≡ mixed hash number }
{
    let sum = hash.wrapping_mul(SPREAD).wrapping_add(number);
    sum.wrapping_mul(sum.wrapping_add(sum).wrapping_add(1))
}

// A hash of a number.
fn number_hash(number: i128) -> u64
    ensures { result ≡ number_hash number }
{
    let term = Term::new(Node::Num(number));
    hash(&term)
}

impl Applications {
    /// None.
    pub fn none(alloc: Global) -> Applications
        ensures { result.hashes.items ≡ [] }
    {
        Applications {
            hashes: Vec::new(alloc),
        }
    }

    // The hash comes behind.
    fn push(&mut self, hash: u64) -> Result<u64, AllocError>
        ensures hash { IfOk result (λ h. h ≡ hash) }
        ensures hashes { OnOk result (self.new.hashes.items ≡ self.old.hashes.items ++ hash ∷ []) }
    {
        self.hashes.push(hash)?;
        Ok(hash)
    }

    /// Those in the term come behind. The result is the term's hash.
    #[cycle(add)]
    #[tactic(auto, using(logic_core::proofs::Mentioned::behind))]
    pub fn add_term(&mut self, term: &Term) -> Result<u64, AllocError>
        ensures hash { IfOk result (λ h. h ≡ hash_of term.now) }
        ensures hashes { OnOk result (self.new.hashes.items ≡ self.old.hashes.items ++ applications term.now) }
    {
        match &term.node {
            Node::Num(_) | Node::Truth(_) | Node::Free(_) | Node::Bound(_) => Ok(hash(term)),
            Node::Sum(parts, rest) => {
                let sum = self.add_parts(4, parts)?;
                Ok(mix(sum, number_hash(*rest)))
            }
            Node::Mul(a, b) => self.add_two(5, a, b),
            Node::Read(a, b) => {
                let read = self.add_two(6, a, b)?;
                self.push(read)
            }
            Node::Write(a, b, c) => self.add_three(7, a, b, c),
            Node::If(a, b, c) => self.add_three(8, a, b, c),
            Node::Call(f, terms) => {
                let call = self.add_terms(mix(9, *f), terms)?;
                self.push(call)
            }
            Node::Not(a) => Ok(mix(10, self.add_term(a)?)),
            Node::And(terms) => self.add_terms(11, terms),
            Node::Or(terms) => self.add_terms(12, terms),
            Node::Eq(a, b) => self.add_two(13, a, b),
            Node::Le(a, b) => self.add_two(14, a, b),
            Node::ForAll(_, patterns, body) => {
                let triggers = self.add_patterns(15, patterns)?;
                Ok(mix(triggers, self.add_term(body)?))
            }
            Node::Exists(_, patterns, body) => {
                let triggers = self.add_patterns(16, patterns)?;
                Ok(mix(triggers, self.add_term(body)?))
            }
        }
    }

    // Those in two terms.
    #[cycle(add)]
    #[tactic(auto, using(logic_core::proofs::Mentioned::behind))]
    fn add_two(&mut self, start: u64, a: &Term, b: &Term) -> Result<u64, AllocError>
        ensures hash { IfOk result (λ h. h ≡ mixed (mixed start (hash_of a.now)) (hash_of b.now)) }
        ensures hashes { OnOk result (self.new.hashes.items ≡ self.old.hashes.items ++ (applications a.now ++ applications b.now)) }
    {
        let first = self.add_term(a)?;
        let second = self.add_term(b)?;
        Ok(mix(mix(start, first), second))
    }

    // Those in three terms.
    #[cycle(add)]
    #[tactic(auto, using(logic_core::proofs::Mentioned::behind))]
    fn add_three(&mut self, start: u64, a: &Term, b: &Term, c: &Term) -> Result<u64, AllocError>
        ensures hash { IfOk result (λ h. h ≡ mixed (mixed (mixed start (hash_of a.now)) (hash_of b.now)) (hash_of c.now)) }
        ensures hashes { OnOk result (self.new.hashes.items ≡ self.old.hashes.items ++ (applications a.now ++ (applications b.now ++ applications c.now))) }
    {
        let first = self.add_term(a)?;
        let second = self.add_term(b)?;
        let third = self.add_term(c)?;
        Ok(mix(mix(mix(start, first), second), third))
    }

    // Those in the terms. The result is the terms' hashes, one after another in a hash.
    #[cycle(add)]
    #[tactic(auto, using(logic_core::proofs::Mentioned::behind))]
    fn add_terms(&mut self, start: u64, terms: &[Term]) -> Result<u64, AllocError>
        ensures hash { IfOk result (λ h. h ≡ hash_of_each start (trees_of terms.now)) }
        ensures hashes { OnOk result (self.new.hashes.items ≡ self.old.hashes.items ++ applications_of_each (trees_of terms.now)) }
    {
        let mut mixed = start;
        for term in terms {
            let hash = self.add_term(term)?;
            mixed = mix(mixed, hash);
        }
        Ok(mixed)
    }

    // Those in the atoms of a sum likewise.
    #[cycle(add)]
    #[tactic(auto, using(logic_core::proofs::Mentioned::behind))]
    fn add_parts(&mut self, start: u64, parts: &[(i128, Term)]) -> Result<u64, AllocError>
        ensures hash { IfOk result (λ h. h ≡ hash_of_parts start (parts_of parts.now)) }
        ensures hashes { OnOk result (self.new.hashes.items ≡ self.old.hashes.items ++ applications_of_parts (parts_of parts.now)) }
    {
        let mut mixed = start;
        for part in parts {
            let hash = self.add_term(&part.1)?;
            mixed = mix(mix(mixed, number_hash(part.0)), hash);
        }
        Ok(mixed)
    }

    // Those in the terms of each trigger likewise.
    #[cycle(add)]
    #[tactic(auto, using(logic_core::proofs::Mentioned::behind))]
    fn add_patterns(&mut self, start: u64, patterns: &[Vec<Term>]) -> Result<u64, AllocError>
        ensures hash { IfOk result (λ h. h ≡ hash_of_patterns start (patterns_of (each_items patterns.now))) }
        ensures hashes { OnOk result (self.new.hashes.items ≡ self.old.hashes.items ++ applications_of_patterns (patterns_of (each_items patterns.now))) }
    {
        let mut mixed = start;
        for pattern in patterns {
            let hash = self.add_terms(17, pattern)?;
            mixed = mix(mixed, hash);
        }
        Ok(mixed)
    }
}
