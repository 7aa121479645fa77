// Sorts without memory: how many maps stand around the integers or the truth values.
ghost use Rattle.std.specs.Prelude.{◌≡◌, IfOk};
ghost use Rattle.logic_terms.specs.Tree.{int, boolean, map as map_of};
ghost use Rattle.logic_terms.specs.Same.{same_kind};
ghost use Rattle.logic_terms.specs.Sorts.{is, range};
ghost use Rattle.bpl_scopes.specs.Shape.{same_base, kind_of, kind_seen};

use std::alloc::AllocError;

/// What stands under the maps of a sort.
#[derive(Clone, Copy)]
pub enum Base {
    Int,
    Bool,
}

/// A sort: so many maps, one in another, over a base.
#[derive(Clone, Copy)]
pub struct Shape {
    pub maps: u64,
    pub base: Base,
}

impl Base {
    fn equals(self, other: Base) -> bool
        ensures { result ≡ same_base self other }
    {
        match self {
            Base::Int => match other {
                Base::Int => true,
                Base::Bool => false,
            },
            Base::Bool => match other {
                Base::Int => false,
                Base::Bool => true,
            },
        }
    }
}

impl Shape {
    /// The sort of integers.
    pub fn int() -> Shape
        ensures { kind_of result ≡ int }
    {
        Shape {
            maps: 0,
            base: Base::Int,
        }
    }

    /// The sort of truth values.
    pub fn boolean() -> Shape
        ensures { kind_of result ≡ boolean }
    {
        Shape {
            maps: 0,
            base: Base::Bool,
        }
    }

    /// Whether the two are one sort.
    #[tactic(auto, using(crate::proofs::Shapes::same_nested, crate::proofs::Shapes::other_nested))]
    pub fn equals(self, other: Shape) -> bool
        ensures { result ≡ same_kind (kind_of self) (kind_of other) }
    {
        if self.maps == other.maps {
            return self.base.equals(other.base);
        }
        false
    }

    /// What a map of this sort holds; None where it is no map.
    #[tactic(auto, using(crate::proofs::Shapes::no_range, crate::proofs::Shapes::range_nested))]
    pub fn range(self) -> Option<Shape>
        ensures { kind_seen result ≡ range (kind_of self) }
    {
        if self.maps == 0 {
            return None;
        }
        Some(Shape {
            maps: self.maps - 1,
            base: self.base,
        })
    }

    /// The sort of the maps that hold values of this one. No program that memory holds nests as
    /// many maps as a count of 64 bits doesn't hold.
    pub fn map_of(self) -> Result<Shape, AllocError>
        ensures { IfOk result (λ s. kind_of s ≡ map_of (kind_of self)) }
    {
        match self.maps.checked_add(1) {
            Some(maps) => Ok(Shape {
                maps,
                base: self.base,
            }),
            None => Err(AllocError),
        }
    }
}

/// Whether there is a sort, and it is this one.
pub fn is(wanted: Shape, found: Option<Shape>) -> bool
    ensures { result ≡ is (kind_of wanted) (kind_seen found) }
{
    match found {
        Some(found) => found.equals(wanted),
        None => false,
    }
}
