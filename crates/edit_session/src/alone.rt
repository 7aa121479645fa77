// The body of one declaration, where it alone is another one.
ghost use Rattle.std.specs.Prelude.{◌≡◌};
ghost use Rattle.body_revision.specs.Revision.{revised, all_revised};
ghost use Rattle.vc_build.specs.Rebuild.{built};
ghost use Rattle.vc_rebuild.specs.Change.{IsChangedAt};

use body_revision::{ModulePart, Revision};
use bpl_model::Module;
use vc_rebuild::{ChangedBody, changed_body};

// The body that is another one, if the revision is that.
fn body_at(typed: &Module, revision: &Revision) -> Option<ChangedBody>
    ensures { IsChangedAt result (built typed.now) (revised revision.now typed.now) }
{
    match &revision.part {
        ModulePart::Procedure { at, proc } => {
            let body = ChangedBody {
                decl_at: revision.decl_at,
                proc_at: *at,
            };
            changed_body(typed, body, proc, &revision.text)
        }
        ModulePart::Axiom { .. } => None,
        ModulePart::Function { .. } => None,
    }
}

/// The body that is another one, if the revisions are one, and it is that.
pub fn changed_alone(typed: &Module, revisions: &[Revision]) -> Option<ChangedBody>
    ensures { IsChangedAt result (built typed.now) (all_revised typed.now revisions.now) }
{
    if revisions.len() != 1 {
        return None;
    }
    let revision = &revisions[0];
    body_at(typed, revision)
}
