// A quantifier whose trigger takes two patterns.
use super::terms::var;
use logic_core::{Node, Sequence, Signature, Sort, SortKind, Term};
use quantifier_triggers::with_triggers;
use std::alloc::{AllocError, Global};
use std::test::Fail;

fn read(alloc: Global, map: u64, index: u64) -> Result<Term, AllocError> {
    let index = Term::new(Node::Bound(index));
    Ok(Term::new(Node::Read(Box::new(alloc, var(map))?, Box::new(alloc, index)?)))
}

// For all i and j, a[i] <= b[j], with these triggers.
fn ordered(alloc: Global, triggers: Vec<Vec<Term>>) -> Result<Term, AllocError> {
    let left = Box::new(alloc, read(alloc, 0, 1)?)?;
    let body = Node::Le(left, Box::new(alloc, read(alloc, 1, 0)?)?);
    let sorts = vec![in alloc; Sort::int(), Sort::int()]?;
    Ok(Term::new(Node::ForAll(sorts, triggers, Box::new(alloc, Term::new(body))?)))
}

fn map_sort(alloc: Global) -> Result<Sort, AllocError> {
    Ok(Sort {
        kind: SortKind::Map(Box::new(alloc, Sort::int())?),
    })
}

#[test]
fn two_patterns(rt: HostRuntime) -> Result<(), Fail> {
    let alloc = rt.alloc();
    let vars = vec![in alloc; map_sort(alloc)?, map_sort(alloc)?]?;
    let signature = Signature::new(Sequence::of(vars), Sequence::new(alloc));
    let patterns = vec![in alloc; read(alloc, 0, 1)?, read(alloc, 1, 0)?]?;
    let expected = ordered(alloc, vec![in alloc; patterns]?)?;
    let chosen = with_triggers(alloc, &ordered(alloc, Vec::new(alloc))?, &signature)?;
    assert!(rt; chosen.equals(&expected));
    Ok(())
}
