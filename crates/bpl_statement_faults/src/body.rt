// Where the statements of a body stand: their scope, what the procedure modifies, and the labels.
ghost use Rattle.std.specs.Prelude.{◌≡◌};
ghost use Rattle.bpl_statement_faults.specs.BodyView.{body_seen};
ghost use Rattle.bpl_statement_faults.specs.StmtFaults.{may_modify};

use crate::label_stack::LabelStack;
use bpl_faults::Scope;
use bpl_scopes::Positions;

/// Where a body stands: its scope, the global variables that its procedure modifies, where it is
/// one's, and the labels of all its statements.
#[derive(Drop)]
pub struct BodyScope<'b, 's, 'a> {
    pub scope: &'b Scope<'s, 'a>,
    pub modified: Option<&'b Positions<'a>>,
    pub labels: &'b Positions<'a>,
}

/// The labels of the ifs and whiles around a statement, and those of the statements that come
/// later in its list and in the lists around it.
#[derive(Drop)]
pub struct Labels<'a> {
    pub around: LabelStack<'a>,
    pub ahead: LabelStack<'a>,
}

impl<'b, 's, 'a> BodyScope<'b, 's, 'a> {
    /// Whether the procedure modifies that global variable, as far as is known.
    pub(crate) fn may_modify(&self, name: &[u8]) -> bool
        ensures { result ≡ may_modify (body_seen self.now).modified name.now }
    {
        match self.modified {
            Some(modified) => modified.contains(name),
            None => true,
        }
    }
}
