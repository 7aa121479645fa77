// The run of a search on a stack of branches.
ghost use Rattle.std.specs.Prelude.{◌≡◌, [], ◌∷◌, IfOk};
ghost use Rattle.tableau.specs.Search.{run};
ghost use Rattle.tableau.specs.RunView.{run_of};

use crate::rules::step;
use logic_core::def::Def;
use logic_core::fault::NormalFault;
use std::alloc::{AllocError, Global};
use tableau::ended::{Run, Verdict};
use tableau_branch::branch::Branch;
use tableau_branch::played::Move;

/// Lets a step go.
fn discard(_step: Move) {}

/// Searches from one branch: a step at a time on the branch on top of the stack, as long as its
/// cost is paid by the turns that are left.
pub fn run(alloc: Global, defs: &[Def], turns: u64, first: Branch) -> Result<Run, AllocError>
    ensures { IfOk result (λ r. run_of r ≡ run defs.now turns turns (first ∷ [])) }
{
    let mut left = turns;
    let mut moves = Vec::new(alloc);
    let mut stack = Vec::new(alloc);
    stack.push(first)?;
    while let Some(branch) = stack.pop() {
        match step(alloc, defs, branch) {
            Ok(Some(step)) => {
                let cost = step.cost();
                if left < cost {
                    discard(step);
                    return Ok(Run {
                        verdict: Verdict::Turns,
                        moves,
                    });
                }
                left -= cost;
                moves.push(step.play(alloc, &mut stack)?)?;
            }
            Ok(None) => {
                return Ok(Run {
                    verdict: Verdict::Open,
                    moves,
                });
            }
            Err(NormalFault::Wide) => {
                return Ok(Run {
                    verdict: Verdict::Wide,
                    moves,
                });
            }
            Err(NormalFault::Memory) => return Err(AllocError),
        }
    }
    Ok(Run {
        verdict: Verdict::Proved,
        moves,
    })
}
