// What is kept of a procedure.
ghost use Rattle.std.specs.Prelude.{◌≡◌, map, length, bytes_eq, IfOk};
ghost use Rattle.std.specs.Arc.{arc_value};
ghost use Rattle.vc_rebuild.specs.Inside.{SameObligations};
ghost use Rattle.vc_rebuild.specs.Marks.{remarked};

use crate::digest::DigestedText;
use crate::shared::KeptGoal;
use bpl_model::Name;
use flow_core::Mark;
use logic_core::Sequence;
use std::alloc::{AllocError, Global};
use std::marker::Model;
use std::sync::Arc;

/// The parts of a procedure that is kept. The obligations may be the same ones in memory as others'; the
/// marks are the procedure's own.
#[derive(Drop)]
struct ProcParts {
    name: Name,
    depends: DigestedText,
    marks: Sequence<Mark>,
    // their own marks may be those of an earlier text
    shared: Arc<Sequence<KeptGoal>, Global>,
}

impl Model for ProcParts {
    ghost use Rattle.std.specs.Prelude.{◌≡◌, length};
    ghost use Rattle.std.specs.Arc.{arc_value};
    ghost use Rattle.vc_build.specs.Rebuild.{BuiltProc as built_proc};
    ghost use Rattle.vc_rebuild.specs.Codes.{coded_proc};
    ghost use Rattle.vc_rebuild.specs.Marks.{remarked};

    ghost Value = { built_proc };

    ghost coded = { coded_proc };

    ghost view = { λ a. record { name = a.name; depends = a.depends; goals = remarked a.marks (arc_value a.shared) } };

    ghost invariant = { λ a. length a.marks ≡ length (arc_value a.shared) };
}

impl ProcParts {
    // Of these parts.
    fn of(
        name: Name,
        depends: DigestedText,
        marks: Sequence<Mark>,
        shared: Arc<Sequence<KeptGoal>, Global>,
    ) -> ProcParts
        requires { length marks ≡ length (arc_value shared) }
        ensures { result ≡ record { name = name; depends = depends; goals = remarked marks (arc_value shared) } }
    {
        ProcParts {
            name,
            depends,
            marks,
            shared,
        }
    }

    // Its name.
    fn name(&self) -> &Name
        ensures { result.now ≡ self.now.name }
    {
        &self.name
    }

    // Its dependency text.
    fn depends(&self) -> &DigestedText
        ensures { result.now ≡ self.now.depends }
    {
        &self.depends
    }

    // The marks of its goals.
    #[tactic(auto, using(crate::proofs::MarksInOrder::marks_of_remarked))]
    fn marks(&self) -> &[Mark]
        ensures { result.now ≡ map (λ g. g.mark) self.now.goals }
    {
        self.marks.as_slice()
    }

    // Its goals but for their marks.
    #[tactic(auto, using(crate::proofs::MarksInOrder::obligations_of_remarked))]
    fn shared(&self) -> &[KeptGoal]
        ensures { SameObligations result.now self.now.goals }
    {
        self.shared.as_slice()
    }

    // The same, to be shared.
    #[tactic(auto, using(crate::proofs::MarksInOrder::obligations_of_remarked))]
    fn sharing(&self) -> &Arc<Sequence<KeptGoal>, Global>
        ensures { SameObligations (arc_value result.now) self.now.goals }
    {
        &self.shared
    }
}

/// A procedure with a body: its dependency text, which is the canonical texts of its declarations and
/// those without bodies of the others that its names reach, and its goals, by block of its graph and
/// then by place. Before and after an edit it may be the same one in memory.
#[derive(Drop)]
pub struct BuiltProc {
    parts: Arc<ProcParts, Global>,
}

impl Model for BuiltProc {
    ghost use Rattle.std.specs.Arc.{arc_value};
    ghost use Rattle.vc_build.specs.Rebuild.{BuiltProc as built_proc};
    ghost use Rattle.vc_rebuild.specs.Codes.{coded_proc};

    ghost Value = { built_proc };

    ghost coded = { coded_proc };

    ghost view = { λ a. arc_value a.parts };
}

impl BuiltProc {
    /// Of these parts.
    pub(crate) fn of(
        alloc: Global,
        name: Name,
        depends: DigestedText,
        marks: Sequence<Mark>,
        shared: Arc<Sequence<KeptGoal>, Global>,
    ) -> Result<BuiltProc, AllocError>
        requires { length marks ≡ length (arc_value shared) }
        ensures { IfOk result (λ b. b ≡ record { name = name; depends = depends; goals = remarked marks (arc_value shared) }) }
    {
        let parts = Arc::new(alloc, ProcParts::of(name, depends, marks, shared))?;
        Ok(BuiltProc { parts })
    }

    /// It once more, the same one in memory.
    pub(crate) fn share(&self) -> Result<BuiltProc, AllocError>
        ensures { IfOk result (λ b. b ≡ self.now) }
    {
        let parts = Arc::try_clone(&self.parts)?;
        Ok(BuiltProc { parts })
    }

    /// Its name.
    pub fn name(&self) -> &Name
        ensures { result.now ≡ self.now.name }
    {
        self.parts.name()
    }

    /// Its dependency text.
    pub(crate) fn depends(&self) -> &DigestedText
        ensures { result.now ≡ self.now.depends }
    {
        self.parts.depends()
    }

    /// Whether the other one has the same dependency text.
    pub fn has_text_of(&self, other: &BuiltProc) -> bool
        ensures { result ≡ bytes_eq self.now.depends other.now.depends }
    {
        self.depends().text() == other.depends().text()
    }

    /// The marks of its goals.
    pub fn marks(&self) -> &[Mark]
        ensures { result.now ≡ map (λ g. g.mark) self.now.goals }
    {
        self.parts.marks()
    }

    /// Its goals but for their marks.
    pub fn shared(&self) -> &[KeptGoal]
        ensures { SameObligations result.now self.now.goals }
    {
        self.parts.shared()
    }

    /// The same, to be shared.
    pub(crate) fn sharing(&self) -> &Arc<Sequence<KeptGoal>, Global>
        ensures { SameObligations (arc_value result.now) self.now.goals }
    {
        self.parts.sharing()
    }
}
