// Places of terms: a term that is kept whole, or a part of the term at an earlier place. So each
// term is kept once, however many terms in it have places.
ghost use Rattle.std.specs.Prelude.{◌≡◌, ◌<◌, [], ◌∷◌, ◌++◌, length, take, map, get_or, OnOk, OnErr, IfOk};
ghost use Rattle.term_bank.specs.Numbered.{at};
ghost use Rattle.term_bank.specs.Standing.{direct, triggers, row_of, part_or_self};

use logic_core::{Node, Term};
use std::alloc::{AllocError, Global};
use std::marker::Model;

/// Which part of a term: one of its direct parts, or of those in one of its triggers.
#[derive(Clone, Copy)]
pub struct Way {
    /// The trigger, where it isn't a direct part.
    pub pattern: Option<usize>,
    /// The place among those parts.
    pub item: usize,
}

// Where a term stands.
#[derive(Drop)]
enum Step {
    // A term that is kept.
    Whole(Term),
    // A part of the term at the place.
    Within(usize, Way),
}

/// Places, each of which has a term.
#[derive(Drop)]
pub struct Places {
    steps: Vec<Step>,
}

impl Model for Places {
    ghost use Rattle.std.specs.Prelude.{List};
    ghost use Rattle.std.specs.Coded.{coded_list};
    ghost use Rattle.logic_core.specs.Tree.{Tree};
    ghost use Rattle.logic_core.specs.Codes.{coded_tree};

    ghost Value = { List Tree };

    ghost coded = { coded_list coded_tree };

    ghost use Rattle.term_bank.specs.Standing.{all_led, AreBehind};

    ghost view = { λ a. all_led a.steps.items };

    ghost invariant = { λ a. AreBehind 0 a.steps.items };
}

fn item_or<'t>(terms: &'t [Term], item: usize, other: &'t Term) -> &'t Term
    ensures { result.now ≡ get_or terms.now item other.now }
{
    match terms.get(item) {
        Some(term) => term,
        None => other,
    }
}

fn atom_or<'t>(parts: &'t [(i128, Term)], item: usize, other: &'t Term) -> &'t Term
    ensures { result.now ≡ get_or (map (λ p. p.1) parts.now) item other.now }
{
    match parts.get(item) {
        Some(part) => &part.1,
        None => other,
    }
}

// The direct part at this place, or the term itself where there is none.
#[tactic(auto, using(crate::proofs::Led::listed_trees, crate::proofs::Led::atoms_parts))]
fn direct_or_self(term: &Term, item: usize) -> &Term
    ensures { result.now ≡ get_or (direct term.now) item term.now }
{
    match &term.node {
        Node::Num(_) | Node::Truth(_) | Node::Free(_) | Node::Bound(_) => term,
        Node::Sum(parts, _) => atom_or(parts, item, term),
        Node::Mul(a, b) | Node::Read(a, b) | Node::Eq(a, b) | Node::Le(a, b) => match item {
            0 => a,
            1 => b,
            _ => term,
        },
        Node::Write(a, b, c) | Node::If(a, b, c) => match item {
            0 => a,
            1 => b,
            2 => c,
            _ => term,
        },
        Node::Call(_, terms) | Node::And(terms) | Node::Or(terms) => item_or(terms, item, term),
        Node::Not(a) | Node::ForAll(_, _, a) | Node::Exists(_, _, a) => match item {
            0 => a,
            _ => term,
        },
    }
}

// The term at this place of a trigger, or the term itself where there is none.
#[tactic(auto, using(crate::proofs::Led::lists_patterns))]
fn in_trigger_or_self(term: &Term, pattern: usize, item: usize) -> &Term
    ensures { result.now ≡ get_or (get_or (triggers term.now) pattern []) item term.now }
{
    match &term.node {
        Node::ForAll(_, patterns, _) | Node::Exists(_, patterns, _) => {
            in_pattern_or(patterns, pattern, item, term)
        }
        _ => term,
    }
}

fn in_pattern_or<'t>(
    patterns: &'t [Vec<Term>],
    pattern: usize,
    item: usize,
    other: &'t Term,
) -> &'t Term
    ensures { result.now ≡ get_or (get_or (map (λ p. p.items) patterns.now) pattern []) item other.now }
{
    match patterns.get(pattern) {
        Some(terms) => item_or(terms, item, other),
        None => other,
    }
}

/// How many terms a trigger of the term has, or how many direct parts the term has.
pub fn row_len(term: &Term, pattern: Option<usize>) -> usize
    ensures { result ≡ length (row_of term.now pattern) }
{
    match pattern {
        None => direct_len(term),
        Some(pattern) => trigger_len(term, pattern),
    }
}

// How many direct parts the term has.
#[tactic(auto, using(crate::proofs::Led::listed_trees, crate::proofs::Led::length_atoms))]
fn direct_len(term: &Term) -> usize
    ensures { result ≡ length (direct term.now) }
{
    match &term.node {
        Node::Num(_) | Node::Truth(_) | Node::Free(_) | Node::Bound(_) => 0,
        Node::Sum(parts, _) => parts.len(),
        Node::Mul(_, _) | Node::Read(_, _) | Node::Eq(_, _) | Node::Le(_, _) => 2,
        Node::Write(_, _, _) | Node::If(_, _, _) => 3,
        Node::Call(_, terms) | Node::And(terms) | Node::Or(terms) => terms.len(),
        Node::Not(_) | Node::ForAll(_, _, _) | Node::Exists(_, _, _) => 1,
    }
}

// How many terms the trigger has.
#[tactic(auto, using(crate::proofs::Led::lists_patterns))]
fn trigger_len(term: &Term, pattern: usize) -> usize
    ensures { result ≡ length (get_or (triggers term.now) pattern []) }
{
    match &term.node {
        Node::ForAll(_, patterns, _) | Node::Exists(_, patterns, _) => {
            pattern_len(patterns, pattern)
        }
        _ => 0,
    }
}

fn pattern_len(patterns: &[Vec<Term>], pattern: usize) -> usize
    ensures { result ≡ length (get_or (map (λ p. p.items) patterns.now) pattern []) }
{
    match patterns.get(pattern) {
        Some(terms) => terms.len(),
        None => 0,
    }
}

/// How many triggers the term has.
#[tactic(auto, using(crate::proofs::Led::length_lists))]
pub fn trigger_count(term: &Term) -> usize
    ensures { result ≡ length (triggers term.now) }
{
    match &term.node {
        Node::ForAll(_, patterns, _) | Node::Exists(_, patterns, _) => patterns.len(),
        _ => 0,
    }
}

/// The part that lies this way, or the term itself where there is none.
pub fn part_of(term: &Term, way: Way) -> &Term
    ensures { result.now ≡ part_or_self term.now way }
{
    match way.pattern {
        None => direct_or_self(term, way.item),
        Some(pattern) => in_trigger_or_self(term, pattern, way.item),
    }
}

impl Places {
    /// No places.
    pub fn new(alloc: Global) -> Places
        ensures { result ≡ [] }
    {
        Places {
            steps: Vec::new(alloc),
        }
    }

    /// The number of places.
    pub fn len(&self) -> usize
        ensures { result ≡ length self.now }
    {
        self.steps.len()
    }

    /// The first places stay, and all others go.
    pub fn truncate(&mut self, len: usize)
        ensures { self.new ≡ take len self.old }
    {
        self.steps.truncate(len);
    }

    /// The term at a place.
    #[cycle(place)]
    pub fn term(&self, place: usize) -> &Term
        requires { place < length self.now }
        ensures { result.now ≡ at self.now place }
    {
        match &self.steps[place] {
            Step::Whole(term) => term,
            Step::Within(of, way) => part_of(self.term(*of), *way),
        }
    }

    /// A place for a term, behind the others. It is the place's number.
    pub fn push_whole(&mut self, term: Term) -> Result<usize, AllocError>
        ensures place { IfOk result (λ p. p ≡ length self.old) }
        ensures ok { OnOk result (self.new ≡ self.old ++ term ∷ []) }
        ensures memory { OnErr result (self.new ≡ self.old) }
    {
        let place = self.steps.len();
        self.steps.push(Step::Whole(term))?;
        Ok(place)
    }

    /// A place for a part of the term at a place, behind the others. It is the place's number.
    pub fn push_part(&mut self, of: usize, way: Way) -> Result<usize, AllocError>
        requires { of < length self.old }
        ensures place { IfOk result (λ p. p ≡ length self.old) }
        ensures ok { OnOk result (self.new ≡ self.old ++ part_or_self (at self.old of) way ∷ []) }
        ensures memory { OnErr result (self.new ≡ self.old) }
    {
        let place = self.steps.len();
        self.steps.push(Step::Within(of, way))?;
        Ok(place)
    }
}
