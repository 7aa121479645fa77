// Wrappers, and the breaks that leave them.
ghost use Rattle.std.specs.Prelude.{◌≡◌, [], ◌∷◌, IfOk};
ghost use Rattle.bpl_model.specs.Module.{labels_of};
ghost use Rattle.bpl_model.specs.StmtView.{stmts_of};
ghost use Rattle.bpl_goto.specs.Removed.{wrapper, wrapped, wrapped_for, leave, choice};

use bpl_model::name_set::NameSet;
use bpl_model::{Name, Place, Stmt, StmtForm};
use logic_core::{Node, Term};
use std::alloc::{AllocError, Global};

/// What the removal of a body's gotos needs to know of it: the labels that they name, and a length
/// that no label exceeds.
#[derive(Drop)]
pub struct Labels<'a> {
    pub named: NameSet<'a>,
    pub longest: usize,
}

impl<'a> Labels<'a> {
    /// The new label for a label: longer than all labels, the signs `@` and then the label.
    #[tactic(auto, using(crate::proofs::Loops::one_sign_more))]
    fn wrapper(&self, alloc: Global, label: &Name) -> Result<Name, AllocError>
        ensures { IfOk result (λ w. w ≡ wrapper self.now.named self.now.longest label.now) }
    {
        let mut text = String::from_str(alloc, "@")?;
        for sign in 0..self.longest {
            text.push_str("@")?;
        }
        text.push_str(label.text.as_str())?;
        Ok(Name { text })
    }

    fn leave(&self, alloc: Global, at: Place, label: &Name) -> Result<Stmt, AllocError>
        ensures { IfOk result (λ s. s ≡ leave self.now.named self.now.longest at label.now) }
    {
        let wrapper = self.wrapper(alloc, label)?;
        Ok(Stmt::new(StmtForm::Break(at, Some(wrapper))))
    }

    /// A free choice of the breaks for these labels; without labels there is no way on.
    #[tactic(auto, using(crate::proofs::Loops::choice_before, crate::proofs::Loops::choice_last))]
    pub fn choice(&self, alloc: Global, at: Place, labels: &[Name]) -> Result<Stmt, AllocError>
        ensures { IfOk result (λ s. s ≡ choice self.now.named self.now.longest at labels.now) }
    {
        if labels.is_empty() {
            return Ok(Stmt::new(StmtForm::Assume(at, Term::new(Node::Truth(false)))));
        }
        let mut i = labels.len() - 1;
        let mut rest = self.leave(alloc, at, &labels[i])?;
        while i > 0 {
            i -= 1;
            let first = one(alloc, self.leave(alloc, at, &labels[i])?)?;
            rest = Stmt::new(StmtForm::If(at, true, None, first, one(alloc, rest)?));
        }
        Ok(rest)
    }

    /// The statements, left by the new label for this one.
    fn wrapped(
        &self,
        alloc: Global,
        before: Vec<Stmt>,
        label: &Name,
    ) -> Result<Vec<Stmt>, AllocError>
        ensures { IfOk result (λ v. stmts_of v.items ≡ wrapped self.now.named self.now.longest (stmts_of before.items) label.now) }
    {
        let guard = Some(Term::new(Node::Truth(true)));
        let nowhere = Place { line: 0, col: 0 };
        let inner = Stmt::new(StmtForm::If(nowhere, false, guard, before, Vec::new(alloc)));
        let mut labels = Vec::new(alloc);
        labels.push(self.wrapper(alloc, label)?)?;
        let outer = Stmt::new(StmtForm::Labelled(labels, Box::new(alloc, inner)?));
        one(alloc, outer)
    }

    // Wrapped for the label, if a goto names it.
    fn wrapped_if_named(
        &self,
        alloc: Global,
        before: Vec<Stmt>,
        label: &Name,
    ) -> Result<Vec<Stmt>, AllocError>
        ensures { IfOk result (λ v. stmts_of v.items ≡ wrapped_for self.now.named self.now.longest (stmts_of before.items) (label.now ∷ [])) }
    {
        if self.named.contains(label.as_bytes()) {
            self.wrapped(alloc, before, label)
        } else {
            Ok(before)
        }
    }

    // Wrapped for each of the labels that gotos name, for the first one innermost.
    fn wrapped_for_each(
        &self,
        alloc: Global,
        before: Vec<Stmt>,
        labels: &[Name],
    ) -> Result<Vec<Stmt>, AllocError>
        ensures { IfOk result (λ v. stmts_of v.items ≡ wrapped_for self.now.named self.now.longest (stmts_of before.items) labels.now) }
    {
        let mut inner = before;
        for label in labels {
            inner = self.wrapped_if_named(alloc, inner, label)?;
        }
        Ok(inner)
    }

    /// Wrapped for each label of the next statement that gotos name.
    #[tactic(auto, using(crate::proofs::Loops::wrapped_both))]
    pub fn wrapped_for(
        &self,
        alloc: Global,
        before: Vec<Stmt>,
        next: &Stmt,
    ) -> Result<Vec<Stmt>, AllocError>
        ensures { IfOk result (λ v. stmts_of v.items ≡ wrapped_for self.now.named self.now.longest (stmts_of before.items) (labels_of next.now)) }
    {
        match &next.form {
            StmtForm::Labelled(labels, behind) => {
                let inner = self.wrapped_for_each(alloc, before, labels)?;
                self.wrapped_for(alloc, inner, behind)
            }
            _ => Ok(before),
        }
    }
}

/// A list of one statement.
fn one(alloc: Global, stmt: Stmt) -> Result<Vec<Stmt>, AllocError>
    ensures { IfOk result (λ v. v.items ≡ stmt ∷ []) }
{
    let mut stmts = Vec::new(alloc);
    stmts.push(stmt)?;
    Ok(stmts)
}
