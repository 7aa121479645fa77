// Which variables terms and commands read.
ghost use Rattle.std.specs.Prelude.{◌≡◌, ◌==◌};
ghost use Rattle.std.specs.List.{list_any};
ghost use Rattle.logic_core.specs.View.{trees_of, parts_of, patterns_of, each_items};
ghost use Rattle.logic_core.specs.Subterm.{has, has_any, has_part, has_pattern};
ghost use Rattle.flow_core.specs.Graph.{set_by};
ghost use Rattle.flow_core.specs.Reading.{read_by, is_set, is_unset};

use crate::command::Command;
use logic_core::{Node, Term};

impl Command {
    /// Whether the command sets the variable.
    pub fn sets(&self, var: u64) -> bool
        ensures { result ≡ list_any (λ x. x == var) (set_by self.now) }
    {
        match self {
            Command::Assert(..) | Command::Assume(_) => false,
            Command::Assign(pairs) => any_is_of(pairs.as_slice(), var),
            Command::Havoc(vars) => vars.as_slice().iter().any(|x| *x == var),
        }
    }

    /// Whether the command reads a variable from number `own` on that none of the commands before
    /// it sets.
    pub fn reads_unset(&self, own: u64, before: &[Command]) -> bool
        ensures { result ≡ list_any (has (is_unset own before.now)) (read_by self.now) }
    {
        match self {
            Command::Assert(_, formula) | Command::Assume(formula) => {
                mentions_unset(formula, own, before)
            }
            Command::Assign(pairs) => any_value_mentions_unset(pairs.as_slice(), own, before),
            Command::Havoc(_) => false,
        }
    }
}

// Whether one of the pairs is the variable's.
fn any_is_of(pairs: &[(u64, Term)], var: u64) -> bool
    ensures { result ≡ list_any (λ p. p.0 == var) pairs.now }
{
    pairs.iter().any(|pair| pair.0 == var)
}

fn any_value_mentions_unset(pairs: &[(u64, Term)], own: u64, commands: &[Command]) -> bool
    ensures { result ≡ list_any (λ p. has (is_unset own commands.now) p.1) pairs.now }
{
    pairs
        .iter()
        .any(|pair| mentions_unset(&pair.1, own, commands))
}

fn is_set(commands: &[Command], var: u64) -> bool
    ensures { result ≡ is_set commands.now var }
{
    commands.iter().any(|command| command.sets(var))
}

/// Whether the term mentions a variable from number `own` on that none of the commands sets.
#[cycle(mentions)]
pub fn mentions_unset(term: &Term, own: u64, commands: &[Command]) -> bool
    ensures { result ≡ has (is_unset own commands.now) term.now }
{
    match &term.node {
        Node::Num(_) | Node::Truth(_) | Node::Bound(_) => false,
        Node::Free(v) => own <= *v && !is_set(commands, *v),
        Node::Sum(parts, _) => part_mentions_unset(parts, own, commands),
        Node::Mul(a, b) | Node::Read(a, b) | Node::Eq(a, b) | Node::Le(a, b) => {
            mentions_unset(a, own, commands) || mentions_unset(b, own, commands)
        }
        Node::Write(a, b, c) | Node::If(a, b, c) => {
            mentions_unset(a, own, commands)
                || mentions_unset(b, own, commands)
                || mentions_unset(c, own, commands)
        }
        Node::Call(_, terms) | Node::And(terms) | Node::Or(terms) => {
            any_mentions_unset(terms, own, commands)
        }
        Node::Not(a) => mentions_unset(a, own, commands),
        Node::ForAll(_, patterns, body) | Node::Exists(_, patterns, body) => {
            pattern_mentions_unset(patterns, own, commands) || mentions_unset(body, own, commands)
        }
    }
}

#[cycle(mentions)]
fn any_mentions_unset(terms: &[Term], own: u64, commands: &[Command]) -> bool
    ensures { result ≡ has_any (is_unset own commands.now) (trees_of terms.now) }
{
    for term in terms {
        if mentions_unset(term, own, commands) {
            return true;
        }
    }
    false
}

#[cycle(mentions)]
fn part_mentions_unset(parts: &[(i128, Term)], own: u64, commands: &[Command]) -> bool
    ensures { result ≡ has_part (is_unset own commands.now) (parts_of parts.now) }
{
    for part in parts {
        if mentions_unset(&part.1, own, commands) {
            return true;
        }
    }
    false
}

#[cycle(mentions)]
fn pattern_mentions_unset(patterns: &[Vec<Term>], own: u64, commands: &[Command]) -> bool
    ensures { result ≡ has_pattern (is_unset own commands.now) (patterns_of (each_items patterns.now)) }
{
    for pattern in patterns {
        if any_mentions_unset(pattern, own, commands) {
            return true;
        }
    }
    false
}
