// The goals of programs, asked of both searches.
use clause_search::search::Searcher;
use obligation_text::Asked;
use plain_search::search::search_plain;
use program_opening::goals::SharedGoal;
use program_opening::{Opened, ProcGoals, open};
use programs::PROGRAMS;
use std::alloc::{AllocError, Global};
use std::process::Abort;
use std::sync::Arc;
use std::test::Fail;
use tableau::ended::Verdict;
use tableau::settled::Settled;

mod programs;

/// The verdict, and the text of the proof, which is empty where there is none.
fn told(alloc: Global, settled: &Settled) -> Result<(Verdict, Vec<u8>), AllocError> {
    let text = match settled.proof() {
        Some(proof) => proof_text::write(alloc, proof)?,
        None => Vec::new(alloc),
    };
    Ok((settled.verdict(), text))
}

/// What both searches say of the goal in so many turns, the one after what it left at the goals before.
fn agreed(
    rt: &impl Abort,
    alloc: Global,
    searcher: &Searcher,
    goal: &SharedGoal,
    turns: u64,
) -> Result<Verdict, AllocError> {
    let obligation = Arc::try_clone(&goal.obligation)?;
    let asked = Arc::new(alloc, Asked::shared(alloc, obligation, turns)?)?;
    let (plain, plain_text) = told(alloc, &search_plain(alloc, &asked)?)?;
    let (verdict, text) = told(alloc, &searcher.search(&asked)?)?;
    assert_eq!(rt; verdict, plain);
    assert_eq!(rt; text.as_slice(), plain_text.as_slice());
    Ok(verdict)
}

/// The goals of the program that a text is, procedure by procedure.
fn goals_of(rt: &impl Abort, alloc: Global, text: &str) -> Result<Vec<ProcGoals>, AllocError> {
    let bytes = text.as_bytes();
    assert!(rt; bytes.len() < u32::MAX as usize);
    match open(alloc, bytes)? {
        Opened::Program(checked) => Ok(checked.goals),
        Opened::Refused(_) => panic!(rt; "no program: {text}"),
    }
}

/// What both searches say of these goals comes behind.
fn add_verdicts(
    rt: &impl Abort,
    alloc: Global,
    searcher: &Searcher,
    verdicts: &mut Vec<Verdict>,
    goals: &[SharedGoal],
    turns: u64,
) -> Result<(), AllocError> {
    for goal in goals {
        verdicts.push(agreed(rt, alloc, searcher, goal, turns)?)?;
    }
    Ok(())
}

/// What both searches say of each goal of the program in so many turns.
fn verdicts_of(
    rt: &impl Abort,
    alloc: Global,
    text: &str,
    turns: u64,
) -> Result<Vec<Verdict>, AllocError> {
    let searcher = Searcher::new(alloc);
    let mut verdicts = Vec::new(alloc);
    for proc in &goals_of(rt, alloc, text)? {
        add_verdicts(rt, alloc, &searcher, &mut verdicts, &proc.goals, turns)?;
    }
    Ok(verdicts)
}

#[test]
fn both_searches_say_what_is_expected(rt: HostRuntime) -> Result<(), Fail> {
    for (text, turns, expected) in PROGRAMS {
        let verdicts = verdicts_of(&rt, rt.alloc(), *text, *turns)?;
        assert_eq!(&rt; verdicts.as_slice(), *expected, "{text:?}");
    }
    Ok(())
}

/// Fewer turns than most proofs take.
const FEW: [u64; 4] = [1, 2, 7, 30];

/// Both searches say the same of the program's goals, of which there are so many, in few turns.
fn run_out_alike(
    rt: &impl Abort,
    alloc: Global,
    text: &str,
    goals: usize,
) -> Result<(), AllocError> {
    for turns in FEW {
        let verdicts = verdicts_of(rt, alloc, text, turns)?;
        assert_eq!(rt; verdicts.len(), goals, "{text:?}");
    }
    Ok(())
}

#[test]
fn both_searches_run_out_of_turns_alike(rt: HostRuntime) -> Result<(), Fail> {
    for (text, _, expected) in PROGRAMS {
        run_out_alike(&rt, rt.alloc(), *text, expected.len())?;
    }
    Ok(())
}
