// What the names of a procedure reach, by the positions of declarations.
ghost use Rattle.std.specs.Prelude.{◌≡◌, ◌+◌, ◌<◌, IfOk, OnOk, length};
ghost use Rattle.std.specs.List.{AllByRecursion};
ghost use Rattle.bpl_model.specs.Reach.{positions, reach_on, reached_by};
ghost use Rattle.bpl_model.specs.Links.{free, mentions};
ghost use Rattle.bpl_model.specs.Marking.{follow, follow_on, mark_all, unmarked};
ghost use Rattle.bpl_model.specs.Walk.{on, own_leads, rows_of};

use crate::declarations::{mark_leads, own_name};
use crate::links::Links;
use crate::marking::Marking;
use crate::module::DeclText;
use crate::proc::Proc;
use crate::walk::{follow, follow_on};
use std::alloc;

/// The positions of all declarations that the procedure's names lead to, in rising order. A
/// declaration leads on by the names of its text without a body, and to each axiom that names it
/// where it is of constants or a function; an axiom that names none of these is always reached. The
/// time is that of one walk over the names of what is reached, and of putting it in order.
pub fn reached_by(
    alloc: alloc::Global,
    links: &Links<'_>,
    proc: &Proc,
) -> Result<Vec<u64>, alloc::AllocError>
    ensures { IfOk result (λ v. v.items ≡ reached_by links.now proc.now) }
{
    let texts = links.parts().texts.as_slice();
    let mut marking = own_marks(alloc, links, proc.name.as_bytes())?;
    walk_on(alloc, texts, links.mentions(), links.free(), &mut marking)?;
    marking.positions(alloc)
}

/// The positions of all declarations that these lead to, in rising order; the first step is to lead on,
/// and to take in the axioms that are always reached. The time is as that of `reached_by`.
pub fn reached_from(
    alloc: alloc::Global,
    links: &Links<'_>,
    leads: &[u64],
) -> Result<Vec<u64>, alloc::AllocError>
    requires { AllByRecursion (λ d. d < length links.now.texts) leads.now }
    ensures { IfOk result (λ v. v.items ≡ reach_on links.now (length links.now.texts + 1) leads.now) }
{
    let texts = links.parts().texts.as_slice();
    let mut marking = Marking::new(alloc, texts.len());
    marking.mark_all(leads)?;
    walk_on(alloc, texts, links.mentions(), links.free(), &mut marking)?;
    marking.positions(alloc)
}

// What the declaration and the implementation of this name lead to has a mark.
fn own_marks(
    alloc: alloc::Global,
    links: &Links<'_>,
    name: &[u8],
) -> Result<Marking, alloc::AllocError>
    ensures { IfOk result (λ m. m ≡ mark_all (unmarked (length links.now.texts)) (own_leads links.now.texts (positions links.now) name.now)) }
{
    let texts = links.parts().texts.as_slice();
    let mut marking = Marking::new(alloc, texts.len());
    mark_leads(texts, links.named(name), &mut marking)?;
    let implementation = own_name(alloc, name)?;
    mark_leads(texts, links.named(implementation.as_slice()), &mut marking)?;
    Ok(marking)
}

// What the marks lead to, and then the free axioms, and what all these lead to, has a mark.
fn walk_on(
    alloc: alloc::Global,
    texts: &[DeclText],
    rows: &[Vec<u64>],
    free: &[u64],
    marking: &mut Marking,
) -> Result<(), alloc::AllocError>
    ensures { OnOk result (marking.new.marks ≡ (follow_on (on texts.now (rows_of rows.now)) (length texts.now) (mark_all (follow (on texts.now (rows_of rows.now)) marking.old) free.now)).marks) }
{
    let first = marking.take_fresh(alloc);
    follow(texts, rows, first.as_slice(), marking)?;
    marking.mark_all(free)?;
    follow_on(alloc, texts, rows, marking)
}
