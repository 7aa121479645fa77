// Copies, and whether graphs are plain whose edges alone decide.
ghost use Rattle.std.specs.Prelude.{◌≡◌, []};

use bv_base::place::Place;
use flow_core::{Block, Command, GoalKind, Graph, LoopHead, Mark};
use logic_core::{Node, Sequence, Term};
use std::alloc::{AllocError, Global};
use std::test::Fail;

const MARK: Mark = Mark {
    place: Place { line: 1, col: 1 },
    kind: GoalKind::Requires(1),
};

#[test]
fn copies(rt: HostRuntime) -> Result<(), Fail> {
    let alloc = rt.alloc();
    let pairs = vec![in alloc; (3, Term::new(Node::Free(4)))]?;
    let commands = vec![in alloc;
        Command::Assert(MARK, Term::new(Node::Free(1))),
        Command::Assume(Term::new(Node::Free(2))),
        Command::Assign(Sequence::of(pairs)),
        Command::Havoc(Sequence::of(vec![in alloc; 4, 5]?)),
    ]?;
    for command in &commands {
        let same = match (command.copy(alloc)?, command) {
            (Command::Assert(mark, a), Command::Assert(_, b)) => mark == MARK && a.equals(b),
            (Command::Assume(a), Command::Assume(b)) => a.equals(b),
            (Command::Assign(a), Command::Assign(b)) => a.len() == b.len(),
            (Command::Havoc(a), Command::Havoc(b)) => a.as_slice() == b.as_slice(),
            _ => false,
        };
        assert!(rt; same);
    }
    Ok(())
}

/// The graph of blocks without commands, parted by `/`. Of each stand the numbers of its
/// successors, and `*` where it is a head.
fn shape(alloc: Global, text: &str) -> Result<Graph, AllocError> {
    let mut blocks = Vec::new(alloc);
    for part in text.split('/') {
        blocks.push(block(alloc, part)?)?;
    }
    Ok(Graph::new(Sequence::of(blocks), 0, Sequence::new(alloc)))
}

fn block(alloc: Global, text: &str) -> Result<Block, AllocError> {
    let mut next = Vec::new(alloc);
    let mut head = None;
    for word in text.split_whitespace() {
        match word.parse::<u64>() {
            Ok(number) => next.push(number)?,
            Err(_) => {
                head = Some(LoopHead {
                    invariants: Sequence::new(alloc),
                    targets: Sequence::new(alloc),
                })
            }
        }
    }
    Ok(Block {
        commands: Sequence::new(alloc),
        next: Sequence::of(next),
        head,
    })
}

#[test]
fn plain_graphs(rt: HostRuntime) -> Result<(), Fail> {
    let alloc = rt.alloc();
    let table = [
        // a branch that joins, and a branch whose successor has another predecessor
        ("1 3 / 2 / 4 / 4 /", true),
        ("1 2 / 2 /", false),
        // a loop in a loop, and a loop that is left by a break out of a branch
        ("1 / 2 7 * / 3 / 4 5 * / 3 / 6 / 1 /", true),
        ("1 / 2 7 * / 3 5 / 8 / 6 / 6 / 1 / 8 / 9 /", true),
        // a head that no edge goes back to, and a block of a loop entered from before its head
        ("1 / 2 * /", false),
        ("2 / 2 * / 1", false),
    ];
    for (text, wanted) in table {
        assert!(rt; shape(alloc, text)?.plain() == wanted, "{text}");
    }
    Ok(())
}
