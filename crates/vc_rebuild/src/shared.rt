// Goals that share their obligations.
ghost use Rattle.std.specs.Prelude.{◌≡◌, IfOk, length};
ghost use Rattle.std.specs.Arc.{arc_value};
ghost use Rattle.obligation_text.specs.Text.{obligation_text};

use flow_core::Mark;
use logic_core::Sequence;
use obligation_text::Asked;
use obligation_text::printing::text;
use std::alloc::{AllocError, Global};
use std::marker::Model;
use std::sync::Arc;
use vc_build::Goal;

/// An assertion of a procedure and what is to be proved of it. Before and after an edit the
/// obligation and the question that asks for its proof may be the same ones in memory.
#[derive(Drop)]
pub struct KeptGoal {
    mark: Mark,
    asked: Arc<Asked, Global>,
    // of the obligation's text
    bytes: usize,
}

impl Model for KeptGoal {
    ghost use Rattle.std.specs.Prelude.{◌≡◌, length};
    ghost use Rattle.std.specs.Arc.{arc_value};
    ghost use Rattle.obligation_text.specs.Text.{obligation_text};
    ghost use Rattle.vc_build.specs.declared.goal.Goal.{Goal as goal_of};
    ghost use Rattle.vc_build.specs.contracts.goal.Goal as goal_row;

    ghost Value = { goal_of };

    ghost coded = { goal_row.the_row.coded };

    ghost view = { λ a. record { mark = a.mark; obligation = (arc_value a.asked).obligation } };

    ghost invariant = { λ a. a.bytes ≡ length (obligation_text (arc_value a.asked).obligation) };
}

impl KeptGoal {
    /// The goal, whose obligation may be shared from now on, and a question that asks for its proof in
    /// so many turns.
    pub fn new(alloc: Global, goal: Goal, turns: u64) -> Result<KeptGoal, AllocError>
        ensures { IfOk result (λ g. g ≡ goal) }
    {
        let text = text(alloc, &goal.obligation)?;
        let obligation = Arc::new(alloc, goal.obligation)?;
        let asked = Asked::printed(alloc, obligation, &text, turns)?;
        Ok(KeptGoal {
            mark: goal.mark,
            asked: Arc::new(alloc, asked)?,
            bytes: text.len(),
        })
    }

    /// Where the assertion stands, and why it is to hold.
    pub fn mark(&self) -> Mark
        ensures { result ≡ self.now.mark }
    {
        self.mark
    }

    /// A question whether the obligation is proved in some number of turns.
    pub fn asked(&self) -> &Arc<Asked, Global>
        ensures { (arc_value result.now).obligation ≡ self.now.obligation }
    {
        &self.asked
    }

    /// How many bytes the obligation's text has.
    pub fn text_len(&self) -> usize
        ensures { result ≡ length (obligation_text self.now.obligation) }
    {
        self.bytes
    }
}

/// The goals, whose obligations may be shared from now on; each is asked for in so many turns.
pub fn share_all(
    alloc: Global,
    goals: Vec<Goal>,
    turns: u64,
) -> Result<Sequence<KeptGoal>, AllocError>
    ensures { IfOk result (λ gs. gs ≡ goals.items) }
{
    let mut shared = Vec::new(alloc);
    for goal in goals {
        shared.push(KeptGoal::new(alloc, goal, turns)?)?;
    }
    Ok(Sequence::of(shared))
}
