// Sorts with memory of their own.
ghost use Rattle.std.specs.Prelude.{◌≡◌, ◌++◌, map, IfOk, OnOk};
ghost use Rattle.bpl_ast.specs.ExprView.{groups_of};
ghost use Rattle.bpl_scopes.specs.Scopes.{hidden_in};
ghost use Rattle.bpl_scopes.specs.Shape.{base_of, kind_of, kind_seen};
ghost use Rattle.bpl_faults.specs.ScopeView.{scope_seen};
ghost use Rattle.bpl_terms.specs.Terms.{sort_or_int, bound_sorts};

use bpl_ast::{Group, Name};
use bpl_faults::Scope;
use bpl_scopes::{Base, Shape};
use logic_core::{Sort, SortKind};
use std::alloc::{AllocError, Global};

fn base_sort(base: Base) -> Sort
    ensures { result ≡ base_of base }
{
    match base {
        Base::Int => Sort::int(),
        Base::Bool => Sort::boolean(),
    }
}

/// The sort of this shape.
#[tactic(auto, using(crate::proofs::Nested::nested_more))]
pub fn sort_of(alloc: Global, shape: Shape) -> Result<Sort, AllocError>
    ensures { IfOk result (λ s. s ≡ kind_of shape) }
{
    let mut sort = base_sort(shape.base);
    for _i in 0..shape.maps {
        let range = Box::new(alloc, sort)?;
        sort = Sort {
            kind: SortKind::Map(range),
        };
    }
    Ok(sort)
}

/// The sort of this shape, or Int where a fault leaves none.
pub fn sort_or_int(alloc: Global, shape: Option<Shape>) -> Result<Sort, AllocError>
    ensures { IfOk result (λ s. s ≡ sort_or_int (kind_seen shape)) }
{
    match shape {
        Some(shape) => sort_of(alloc, shape),
        None => Ok(Sort::int()),
    }
}

/// Puts the sort behind others, once for each name.
pub fn push_sorts(
    alloc: Global,
    sorts: &mut Vec<Sort>,
    names: &[Name],
    shape: Option<Shape>,
) -> Result<(), AllocError>
    ensures { OnOk result (sorts.new.items ≡ sorts.old.items ++ map (λ n. sort_or_int (kind_seen shape)) names.now) }
{
    for _name in names {
        sorts.push(sort_or_int(alloc, shape)?)?;
    }
    Ok(())
}

/// The sorts of the variables that groups bind.
pub fn bound_sorts(alloc: Global, scope: &Scope, groups: &[Group]) -> Result<Vec<Sort>, AllocError>
    ensures { IfOk result (λ v. v.items ≡ bound_sorts (scope_seen scope.now) (groups_of groups.now)) }
{
    let mut sorts = Vec::new(alloc);
    for group in groups {
        let shape = scope.types().sort(&scope.hidden(), &group.of)?;
        push_sorts(alloc, &mut sorts, &group.names, shape)?;
    }
    Ok(sorts)
}
