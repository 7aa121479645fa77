// Searches of the goals of small procedures, with so many turns, worked out by hand from the rules.
use bv_base::{MemSink, MemSource};
use edit_server::{Status, run};
use obligation_board::OpenGate;
use std::alloc::AllocError;
use std::sync::Wait;
use std::test::Fail;
use std::thread::Threads;

/// Whether `check` with so many turns writes, of a procedure with this body, what ends so.
fn ends<R: AllocGlobal + Threads + Wait + Sync>(
    rt: &R,
    body: &str,
    turns: &str,
    end: &str,
    status: Status,
) -> Result<bool, AllocError> {
    let mut words = Vec::new(rt.alloc());
    words.push(String::from_str(rt.alloc(), "check")?)?;
    words.push(String::from_str(rt.alloc(), "--turns")?)?;
    words.push(String::from_str(rt.alloc(), turns)?)?;
    let text = format!(in rt.alloc(); "procedure P() {{ var x, y: int; {body} }}")?;
    let bytes = Vec::from_slice(rt.alloc(), text.as_bytes())?;
    let mut source = MemSource::new(bytes, 64, Vec::new(rt.alloc()));
    let mut sink = MemSink::new(rt.alloc(), 64, Vec::new(rt.alloc()));
    sink.reserve(4096)?;
    let ended = run(rt, words.as_slice(), &mut source, &mut sink, &OpenGate);
    Ok(ended == status && sink.bytes().ends_with(end.as_bytes()))
}

/// Unfold, flatten, rewrite by the assignment, close.
const INCREMENT: &str = "assume x > 0; x := x + 1; assert x > 1;";

/// Unfold, flatten, rewrite by the assignment, trichotomy of x - 1, a close where it is below zero,
/// and where it is zero a rewrite, after which that branch is open.
const TOO_MUCH: &str = "assume x > 0; x := x + 1; assert x > 2;";

/// Unfold, flatten, rewrite by x, rewrite by y, close.
const TWO_EQUATIONS: &str = "assume x == 1 && y == x; assert y == 1 && x <= y;";

/// Unfold, flatten, split, and a close for each case.
const TWO_CASES: &str = "assume x <= y && y <= x + 5; assert x <= y && y <= x + 5;";

/// Unfold, flatten, split, a close of the first case; the second is open.
const OPEN_CASE: &str = "assume x <= y; assert x <= y && y <= x;";

/// The sum of the two numbers is 2^127, so already the first step leaves 128 bits.
const TOO_WIDE: &str =
    "assert x + 85070591730234615865843651857942052864 + 85070591730234615865843651857942052864 > x;";

/// Unfold makes 69 nodes, an Or and four for each comparison, and split 68: each step costs two.
const LONG: &str =
    "assert x <= 1 && x <= 2 && x <= 3 && x <= 4 && x <= 5 && x <= 6 && x <= 7 && x <= 8 && x <= 9 && x <= 10 && x <= 11 && x <= 12 && x <= 13 && x <= 14 && x <= 15 && x <= 16 && x <= 17;";

const PROVED: &str = " assert proved\nP correct\n";

const OPEN: &str = " assert open\nP not proved\n";

const TURNS: &str = " assert turns\nP not proved\n";

const WIDE: &str = " assert wide\nP not proved\n";

/// Bodies, turns, the end of the report and the status.
const SEARCHES: [(&str, &str, &str, Status); 16] = [
    (INCREMENT, "3", TURNS, Status::NotAll),
    (INCREMENT, "4", PROVED, Status::Done),
    (INCREMENT, "20000", PROVED, Status::Done),
    (TOO_MUCH, "5", TURNS, Status::NotAll),
    (TOO_MUCH, "6", OPEN, Status::NotAll),
    (TWO_EQUATIONS, "4", TURNS, Status::NotAll),
    (TWO_EQUATIONS, "5", PROVED, Status::Done),
    (TWO_CASES, "4", TURNS, Status::NotAll),
    (TWO_CASES, "5", PROVED, Status::Done),
    (OPEN_CASE, "3", TURNS, Status::NotAll),
    (OPEN_CASE, "4", OPEN, Status::NotAll),
    (TOO_WIDE, "1", WIDE, Status::NotAll),
    (TOO_WIDE, "20000", WIDE, Status::NotAll),
    (LONG, "1", TURNS, Status::NotAll),
    (LONG, "3", TURNS, Status::NotAll),
    (LONG, "4", OPEN, Status::NotAll),
];

#[test]
fn searches_end_as_worked_out(rt: HostRuntime) -> Result<(), Fail> {
    for (body, turns, end, status) in SEARCHES {
        assert!(rt; ends(&rt, body, turns, end, status)?, "{body} {turns}");
    }
    Ok(())
}
