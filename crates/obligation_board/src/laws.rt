//! What holds of every legal history.
ghost use Rattle.board_core.specs.Laws.{HeldAreOut};
ghost use Rattle.obligation_board.specs.Openers.{OpenersDecide};

use crate::shared::SharedBoard;
use bv_base::{Answered, Question};

impl<A: Answered> SharedBoard<A>
where
    A::Q: Drop,
{
    /// A claim that a caller was given and has not spent, by its own calls alone, is out.
    pub fn held_claims_are_out()
        ensures { HeldAreOut A (λ a. A.Q.key (A.asked a)) A.right }
    {}

    /// The present keys are those of the opener's last open, and the board is closed exactly where
    /// the opener closed it.
    pub fn the_opener_decides()
        ensures { OpenersDecide A (λ a. A.Q.key (A.asked a)) A.right }
    {}
}
