// The variables that hide types of their names.
ghost use Rattle.std.specs.Prelude.{◌≡◌, [], ◌∷◌};
ghost use Rattle.bv_base.specs.Text.{is_among};
ghost use Rattle.bpl_scopes.specs.Scopes.{bound_names};
ghost use Rattle.bpl_scopes.specs.KnownSorts.{bound_seen, bounds_seen, hidden_seen};

use crate::names::Positions;
use crate::shape::Shape;

/// A bound variable, or a parameter of a function, which may have no name. It has no sort where
/// its type has a fault.
#[derive(Clone, Copy)]
pub struct Bound<'a> {
    pub name: Option<&'a [u8]>,
    pub sort: Option<Shape>,
}

/// The bound variables and the other variables that hide types.
#[derive(Drop)]
pub struct Hidden<'s, 'a> {
    pub bounds: &'s [Bound<'a>],
    pub names: &'s Positions<'a>,
}

fn is_named(bound: &Bound, name: &[u8]) -> bool
    ensures { result ≡ is_among (bound_names (bound_seen bound.now ∷ [])) name.now }
{
    match bound.name {
        Some(found) => name == found,
        None => false,
    }
}

fn is_bound(bounds: &[Bound], name: &[u8]) -> bool
    ensures { result ≡ is_among (bound_names (bounds_seen bounds.now)) name.now }
{
    for bound in bounds {
        if is_named(bound, name) {
            return true;
        }
    }
    false
}

impl<'s, 'a> Hidden<'s, 'a> {
    /// Whether a variable has that name.
    pub fn has(&self, name: &[u8]) -> bool
        ensures { result ≡ is_among (hidden_seen self.now) name.now }
    {
        is_bound(self.bounds, name) || self.names.contains(name)
    }
}
