// The equations of an early return's postcondition, from its graph on:
// `r := 0; if (b) { return; } r := 1;` with `ensures r == 1`, where b is variable 0 and r is 1.
use super::terms::{equal, var};
use block_wp::equations;
use bv_base::place::Place;
use flow_core::{Block, Command, GoalKind, Graph, Mark};
use logic_core::{Node, Sequence, Sort, SortKind, Term};
use passive_form::passify;
use std::alloc::{AllocError, Global};
use std::test::Fail;

fn is_number(alloc: Global, variable: u64, number: i128) -> Result<Term, AllocError> {
    equal(alloc, var(variable), Term::new(Node::Num(number)))
}

fn not(alloc: Global, term: Term) -> Result<Term, AllocError> {
    Ok(Term::new(Node::Not(Box::new(alloc, term)?)))
}

fn set_result(alloc: Global, number: i128) -> Result<Command, AllocError> {
    let pair = (1, Term::new(Node::Num(number)));
    Ok(Command::Assign(Sequence::of(vec![in alloc; pair]?)))
}

fn block(commands: Vec<Command>, next: Vec<u64>) -> Block {
    Block {
        commands: Sequence::of(commands),
        next: Sequence::of(next),
        head: None,
    }
}

fn returns_early(alloc: Global) -> Result<Graph, AllocError> {
    let mark = Mark {
        place: Place { line: 2, col: 3 },
        kind: GoalKind::Ensures,
    };
    let begin = set_result(alloc, 0)?;
    let early = Command::Assume(var(0));
    let otherwise = Command::Assume(not(alloc, var(0))?);
    let last = set_result(alloc, 1)?;
    let postcondition = Command::Assert(mark, is_number(alloc, 1, 1)?);
    let blocks = vec![in alloc;
        block(vec![in alloc; begin]?, vec![in alloc; 1, 3]?),
        block(vec![in alloc; early]?, vec![in alloc; 5]?),
        block(Vec::new(alloc), vec![in alloc; 4]?),
        block(vec![in alloc; otherwise]?, vec![in alloc; 4]?),
        block(vec![in alloc; last]?, vec![in alloc; 5]?),
        block(vec![in alloc; postcondition]?, Vec::new(alloc)),
    ]?;
    Ok(Graph::new(Sequence::of(blocks), 2, Sequence::new(alloc)))
}

fn call(alloc: Global, number: u64) -> Term {
    Term::new(Node::Call(number, Vec::new(alloc)))
}

#[test]
fn early_return(rt: HostRuntime) -> Result<(), Fail> {
    let alloc = rt.alloc();
    let sorts = vec![in alloc;
        Sort {
            kind: SortKind::Bool
        },
        Sort {
            kind: SortKind::Int
        },
    ]?;
    let passive = passify(alloc, &returns_early(alloc)?, &sorts)?;
    assert!(rt; passive.vars.len() == 6);
    let sequent = equations(alloc, &passive, &[], 5, 0)?;
    assert!(rt; sequent.goal.equals(&call(alloc, 5)));
    let defs = sequent.defs.as_slice();
    assert!(rt; defs.len() == 6);
    // the last block, the one that leads there early, and the first
    let checked = Term::new(Node::Or(vec![in alloc; is_number(alloc, 5, 1)?]?));
    let last = &defs[0];
    assert!(rt; last.body.equals(&checked));
    let taken = not(alloc, var(0))?;
    let joins = not(alloc, equal(alloc, var(5), var(2))?)?;
    let early = Term::new(Node::Or(vec![in alloc; taken, joins, call(alloc, 0)]?));
    let leads_early = &defs[4];
    assert!(rt; leads_early.body.equals(&early));
    let begins = not(alloc, is_number(alloc, 2, 0)?)?;
    let both = Term::new(Node::And(vec![in alloc; call(alloc, 4), call(alloc, 2)]?));
    let first = Term::new(Node::Or(vec![in alloc; begins, both]?));
    let begin = &defs[5];
    assert!(rt; begin.body.equals(&first));
    Ok(())
}
