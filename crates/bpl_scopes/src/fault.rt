// The kinds of fault, and the first of the faults that were found in a declaration.
ghost use Rattle.std.specs.Prelude.{◌≡◌, Some};
ghost use Rattle.bpl_scopes.specs.Fault.{number, construct_number, order, earlier, first_of_two, first_fault, unless, if_so};

use bv_base::place::Place;
use std::cmp::Ordering;

/// A construct that is read and not built.
#[derive(Clone, Copy, PartialEq, Eq, Debug)]
pub enum Construct {
    /// The word `where` in a quantifier's group or an implementation's parameters.
    WhereWord,
    /// The word `type` without `=`.
    TypeWord,
    /// The word `unique`.
    UniqueWord,
    /// A function without a body.
    Uninterpreted,
    /// Type parameters.
    Polymorphic,
    /// A map's domain that is not the one type `int`.
    Domain,
}

/// The kinds of fault, in the order in which they come at one place.
#[derive(Clone, Copy, PartialEq, Eq, Debug)]
pub enum TypeKind {
    /// A name declared a second time in its scope, a label a second time in a body, a second body.
    Twice,
    /// A name without declaration, a label in a `goto` that no statement of the body has, an
    /// out-parameter in a `requires`, or a name outside those that a where clause may name.
    Unknown,
    /// A name used as something that it isn't; a global variable in a function or axiom.
    Kind,
    /// An operand, argument, right side or condition of a wrong sort.
    Sort,
    /// A wrong number of arguments, outs or right sides; an implementation with other parameters.
    Arity,
    /// A target that isn't a local, an out-parameter or a global.
    NotAssignable,
    /// A global set that `modifies` lacks; a callee's `modifies` not among the caller's.
    NotModified,
    /// A variable twice among targets.
    TargetTwice,
    /// `old` outside bodies and `ensures`, or in a where clause.
    OldHere,
    /// A quantifier or logical application not in a formula position.
    QuantifierHere,
    /// A pattern that isn't one, or a trigger that lacks a variable of its quantifier.
    Trigger,
    /// `break` outside a loop, or with a label of no enclosing `if` or `while`.
    BreakHere,
    /// A function or synonym that leads to itself.
    Cycle,
    /// A construct that is not built.
    Unbuilt(Construct),
    /// A label in a `goto` that stands in the body and isn't forward.
    GotoHere,
    /// A body in which more than 500 labels are named by gotos.
    Labels,
}

impl TypeKind {
    /// The number by which kinds are ordered at one place.
    pub fn number(self) -> u32
        ensures { result ≡ number self }
    {
        match self {
            TypeKind::Twice => 1,
            TypeKind::Unknown => 2,
            TypeKind::Kind => 3,
            TypeKind::Sort => 4,
            TypeKind::Arity => 5,
            TypeKind::NotAssignable => 6,
            TypeKind::NotModified => 7,
            TypeKind::TargetTwice => 8,
            TypeKind::OldHere => 9,
            TypeKind::QuantifierHere => 10,
            TypeKind::Trigger => 11,
            TypeKind::BreakHere => 12,
            TypeKind::Cycle => 13,
            TypeKind::Unbuilt(_) => 14,
            TypeKind::GotoHere => 15,
            TypeKind::Labels => 16,
        }
    }

    // The number by which constructs are ordered at one place.
    fn construct_number(self) -> u32
        ensures { result ≡ construct_number self }
    {
        match self {
            TypeKind::Unbuilt(Construct::WhereWord) => 1,
            TypeKind::Unbuilt(Construct::TypeWord) => 2,
            TypeKind::Unbuilt(Construct::UniqueWord) => 3,
            TypeKind::Unbuilt(Construct::Uninterpreted) => 4,
            TypeKind::Unbuilt(Construct::Polymorphic) => 5,
            TypeKind::Unbuilt(Construct::Domain) => 6,
            _ => 0,
        }
    }
}

/// A fault of a declaration: its place there, and its kind.
#[derive(Clone, Copy, PartialEq, Eq, Debug)]
pub struct Fault {
    pub at: Place,
    pub kind: TypeKind,
}

impl Fault {
    /// How two faults of a declaration stand: by place, then by number.
    pub fn order(self, other: Fault) -> Ordering
        ensures { result ≡ order self other }
    {
        let constructs = self
            .kind
            .construct_number()
            .cmp(&other.kind.construct_number());
        let kinds = self.kind.number().cmp(&other.kind.number());
        let columns = self.at.col.cmp(&other.at.col);
        self.at
            .line
            .cmp(&other.at.line)
            .then(columns.then(kinds.then(constructs)))
    }

    #[tactic(auto, unfolding(crate::specs::Fault::first_of_two))]
    fn first_of_two(self, other: Fault) -> Fault
        ensures { result ≡ first_of_two self other }
    {
        match other.order(self) {
            Ordering::Less => other,
            Ordering::Equal => self,
            Ordering::Greater => self,
        }
    }
}

/// The first of the faults that were found.
#[derive(Drop)]
pub struct Faults {
    pub first: Option<Fault>,
}

impl Faults {
    /// No fault.
    pub fn none() -> Faults
        ensures { result.first ≡ None }
    {
        Faults { first: None }
    }

    /// Finds a fault.
    pub fn note(&mut self, kind: TypeKind, at: Place)
        ensures { self.new.first ≡ earlier self.old.first (Some (record { at = at; kind = kind })) }
    {
        let fault = Fault { at, kind };
        self.first = match self.first {
            None => Some(fault),
            Some(found) => Some(found.first_of_two(fault)),
        };
    }

    /// Finds a fault, unless the test holds.
    pub fn note_unless(&mut self, holds: bool, kind: TypeKind, at: Place)
        ensures { self.new.first ≡ earlier self.old.first (first_fault (unless holds kind at)) }
    {
        if !holds {
            self.note(kind, at);
        }
    }

    /// Finds a fault, if the test holds.
    pub fn note_if(&mut self, holds: bool, kind: TypeKind, at: Place)
        ensures { self.new.first ≡ earlier self.old.first (first_fault (if_so holds kind at)) }
    {
        if holds {
            self.note(kind, at);
        }
    }
}
