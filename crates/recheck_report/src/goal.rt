// A line as the proof of a goal, and what is said of it.
ghost use Rattle.std.specs.Prelude.{◌≡◌, ◌++◌, ◌^◌, ◌<◌, length, option_map, IfOk, OnOk, decimal, codes};
ghost use Rattle.proof_core.specs.Rule.{rule_word};
ghost use Rattle.proof_core.specs.RuleView.{rule_of};
ghost use Rattle.proof_text.specs.Reading.{Spells};
ghost use Rattle.recheck_report.specs.Judged.{IsJudged, complaint};
ghost use Rattle.recheck_report.specs.JudgedView.{judged_of};

use itoa::Buffer;
use obligation_text::Obligation;
use proof_check::{CheckFault, Rule, check};
use proof_core::proof::Proof;
use proof_text::{ProofFault, read};
use std::alloc::{AllocError, Global};

/// What a line is as the proof of a goal.
#[derive(Clone, Copy, PartialEq, Eq, Debug)]
pub enum Judged {
    /// The text of an accepted proof.
    Accepted,
    /// No bytes.
    Missing,
    /// No proof's text, and bad at this byte.
    Bad(u32),
    /// The text of a proof that is refused at this node, by its rule.
    Rejected(u64, Rule),
}

// What the line is that is this proof's text.
fn judge_proof(
    alloc: Global,
    obligation: &Obligation,
    line: &[u8],
    proof: &Proof,
) -> Result<Judged, AllocError>
    requires { Spells line.now proof.now }
    ensures { IfOk result (λ j. IsJudged obligation.now line.now (judged_of j)) }
{
    match check(alloc, obligation, proof) {
        Ok(()) => Ok(Judged::Accepted),
        Err(CheckFault::Rejected { node, rule }) => Ok(Judged::Rejected(node, rule)),
        Err(CheckFault::Memory) => Err(AllocError),
    }
}

/// What the line is as the obligation's proof.
pub fn judge(alloc: Global, obligation: &Obligation, line: &[u8]) -> Result<Judged, AllocError>
    requires { length line.now < 2 ^ 32 }
    ensures { IfOk result (λ j. IsJudged obligation.now line.now (judged_of j)) }
{
    if line.is_empty() {
        return Ok(Judged::Missing);
    }
    match read(alloc, line) {
        Ok(proof) => judge_proof(alloc, obligation, line, &proof),
        Err(ProofFault::BadProof { at }) => Ok(Judged::Bad(at)),
        Err(ProofFault::Memory) => Err(AllocError),
    }
}

// A line of this word and the head.
fn begun(alloc: Global, word: &[u8], head: &[u8]) -> Result<Vec<u8>, AllocError>
    ensures { IfOk result (λ v. v.items ≡ word.now ++ head.now) }
{
    let mut line = Vec::from_slice(alloc, word)?;
    line.extend_from_slice(head)?;
    Ok(line)
}

// That the goal's line is bad at this byte.
fn bad(alloc: Global, head: &[u8], at: u32) -> Result<Vec<u8>, AllocError>
    ensures { IfOk result (λ v. v.items ≡ codes "bad " ++ head.now ++ codes " " ++ decimal at) }
{
    let mut buffer = Buffer::new();
    let mut line = begun(alloc, b"bad ", head)?;
    line.extend_from_slice(b" ")?;
    line.extend_from_slice(buffer.format(at).as_bytes())?;
    Ok(line)
}

// That the goal's proof is refused at this node, by this rule.
fn rejected(alloc: Global, head: &[u8], node: u64, rule: Rule) -> Result<Vec<u8>, AllocError>
    ensures { IfOk result (λ v. v.items ≡ codes "rejected " ++ head.now ++ codes " node " ++ decimal node ++ codes " rule " ++ rule_word (rule_of rule)) }
{
    let mut buffer = Buffer::new();
    let mut line = begun(alloc, b"rejected ", head)?;
    line.extend_from_slice(b" node ")?;
    line.extend_from_slice(buffer.format(node).as_bytes())?;
    line.extend_from_slice(b" rule ")?;
    line.extend_from_slice(rule.word().as_bytes())?;
    Ok(line)
}

/// What is said of the goal with this head; nothing where its proof is accepted.
pub fn complaint(alloc: Global, head: &[u8], judged: Judged) -> Result<Option<Vec<u8>>, AllocError>
    ensures { IfOk result (λ said. option_map (λ v. v.items) said ≡ complaint head.now (judged_of judged)) }
{
    match judged {
        Judged::Accepted => Ok(None),
        Judged::Missing => Ok(Some(begun(alloc, b"missing ", head)?)),
        Judged::Bad(at) => Ok(Some(bad(alloc, head, at)?)),
        Judged::Rejected(node, rule) => Ok(Some(rejected(alloc, head, node, rule)?)),
    }
}
