// The goals of a program, procedure by procedure, within the limits on all of them.
ghost use Rattle.std.specs.Prelude.{◌≡◌, ◌+◌, ◌++◌, ◌∷◌, [], None, map, filter, flat_map, is_some, length, Contains, IfErr, IfOk, OnOk};
ghost use Rattle.std.specs.List.{AllByRecursion};
ghost use Rattle.bpl_model.specs.NoGoto.{BodyHasNoGoto};
ghost use Rattle.bpl_goto.specs.Forward.{AllGoForward};
ghost use Rattle.vc_build.specs.Exceeds.{IsFaultOf};
ghost use Rattle.vc_build.specs.Goals.{goals_by_passes};
ghost use Rattle.vc_build.specs.Large.{large, program_goals as goals_of_program, program_large};
ghost use Rattle.program_opening.specs.ProcGoals.{goals_by_proc, goal_counts};

use bpl_goto::remove_gotos;
use bpl_model::{Links, Mark, Module, Name, Proc};
use bv_base::queue::taken;
use obligation_text::Obligation;
use std::alloc::{AllocError, Global};
use std::collections::VecDeque;
use std::marker::Model;
use std::sync::Arc;
use vc_build::procedure::add_goals;
use vc_build::tally::Tally;
use vc_build::{BuildFault, Goal};

/// A goal: where the assertion stands and why it is to hold, and what is to be valid.
#[derive(Drop)]
pub struct SharedGoal {
    pub mark: Mark,
    pub obligation: Arc<Obligation, Global>,
}

impl Model for SharedGoal {
    ghost use Rattle.std.specs.Arc.{arc_value};
    ghost use Rattle.vc_build.specs.declared.goal.Goal.{Goal as goal};
    ghost use Rattle.vc_build.specs.contracts.goal.Goal as goal_row;

    ghost Value = { goal };

    ghost coded = { goal_row.the_row.coded };

    ghost view = { λ a. record { mark = a.mark; obligation = arc_value a.obligation } };
}

/// A procedure with a body, and its goals in order.
#[derive(Drop)]
pub struct ProcGoals {
    pub name: Name,
    pub goals: Vec<SharedGoal>,
}

impl Model for ProcGoals {
    ghost use Rattle.program_opening.specs.ProcGoals.{ProcGoals as proc_goals, coded_proc_goals};

    ghost Value = { proc_goals };

    ghost coded = { coded_proc_goals };

    ghost view = { λ a. record { name = a.name; goals = a.goals.items } };
}

// The goals of all procedures, one procedure after another, and how many each has.
struct AllGoals {
    counts: Vec<usize>,
    goals: Vec<Goal>,
}

// The procedure's goals come behind, and their number is given.
fn add_counted(
    alloc: Global,
    tally: &mut Tally,
    links: &Links<'_>,
    proc: &Proc,
) -> Result<usize, BuildFault>
    requires there { Contains links.now.procs proc.now }
    requires no_goto { BodyHasNoGoto proc.now.body }
    ensures added { OnOk result (tally.new ≡ tally.old ++ goals_by_passes links.now proc.now) }
    ensures count { IfOk result (λ n. n ≡ length (goals_by_passes links.now proc.now)) }
    ensures fault { IfErr result (IsFaultOf (tally.old ++ goals_by_passes links.now proc.now)) }
{
    let before = tally.len();
    add_goals(alloc, tally, links, proc)?;
    Ok(tally.len() - before)
}

// The goals of all procedures of a module without gotos.
fn counted(alloc: Global, links: &Links<'_>) -> Result<AllGoals, BuildFault>
    requires { AllByRecursion (λ p. BodyHasNoGoto p.body) links.now.procs }
    ensures goals { IfOk result (λ c. c.goals.items ≡ flat_map (goals_by_passes links.now) links.now.procs) }
    ensures counts { IfOk result (λ c. c.counts.items ≡ map (λ p. length (goals_by_passes links.now p)) links.now.procs) }
    ensures within { IfOk result (λ c. large c.goals.items ≡ None) }
    ensures fault { IfErr result (IsFaultOf (flat_map (goals_by_passes links.now) links.now.procs)) }
{
    let procs = &links.parts().procs;
    let mut tally = Tally::new(alloc);
    let mut counts = Vec::new(alloc);
    for i in 0..procs.len() {
        counts.push(add_counted(alloc, &mut tally, links, &procs[i])?)?;
    }
    Ok(AllGoals {
        counts,
        goals: tally.into_goals().into_vec(),
    })
}

// A goal whose obligation can be shared with a search.
fn shared(alloc: Global, goal: Goal) -> Result<SharedGoal, AllocError>
    ensures { IfOk result (λ g. g ≡ goal) }
{
    Ok(SharedGoal {
        mark: goal.mark,
        obligation: Arc::new(alloc, goal.obligation)?,
    })
}

// Goals whose obligations can be shared with a search.
fn share_all(alloc: Global, goals: Vec<Goal>) -> Result<Vec<SharedGoal>, AllocError>
    ensures { IfOk result (λ v. v.items ≡ goals.items) }
{
    let mut own = Vec::new(alloc);
    for goal in goals {
        own.push(shared(alloc, goal)?)?;
    }
    Ok(own)
}

// The procedure with these goals comes behind, where it has a body.
fn push_proc(
    alloc: Global,
    found: &mut Vec<ProcGoals>,
    proc: &Proc,
    goals: Vec<SharedGoal>,
) -> Result<(), AllocError>
    ensures { OnOk result (found.new.items ≡ found.old.items ++ map (λ p. record { name = p.name; goals = goals.items }) (filter (λ p. is_some p.body) (proc.now ∷ []))) }
{
    if proc.body.is_some() {
        found.push(ProcGoals {
            name: proc.name.copy(alloc)?,
            goals,
        })?;
    }
    Ok(())
}

// The goals of each procedure with a body, where these are those of all, and how many each has.
fn by_proc(
    alloc: Global,
    module: &Module,
    counts: &[usize],
    goals: Vec<Goal>,
) -> Result<Vec<ProcGoals>, AllocError>
    requires goals { goals.items ≡ goals_of_program «module».now }
    requires counts { counts.now ≡ goal_counts «module».now }
    ensures { IfOk result (λ v. v.items ≡ goals_by_proc «module».now) }
{
    let procs = &module.parts().procs;
    let mut left = VecDeque::from_vec(goals);
    let mut found = Vec::new(alloc);
    for i in 0..procs.len() {
        let own = share_all(alloc, taken(alloc, &mut left, counts[i])?)?;
        push_proc(alloc, &mut found, &procs[i], own)?;
    }
    Ok(found)
}

/// The goals of each procedure of the module that has a body, in order, after its gotos are removed:
/// an obligation for each of its assertions. Where the whole program has more than 65,536 goals or
/// 67,108,864 bytes of texts of obligations, the fault says so, with the number at the first goal that
/// is too much; at each goal the number of goals is looked at before the bytes.
pub fn program_goals(alloc: Global, module: &Module) -> Result<Vec<ProcGoals>, BuildFault>
    requires { AllGoForward «module».now }
    ensures goals { IfOk result (λ v. v.items ≡ goals_by_proc «module».now) }
    ensures within { IfOk result (λ v. program_large «module».now ≡ None) }
    ensures fault { IfErr result (IsFaultOf (goals_of_program «module».now)) }
{
    let plain = remove_gotos(alloc, module)?;
    let links = Links::of(alloc, &plain)?;
    let AllGoals { counts, goals } = counted(alloc, &links)?;
    Ok(by_proc(alloc, module, &counts, goals)?)
}
