// Whole runs over input and output in memory; what is expected is written by hand from the rules.
ghost use Rattle.std.specs.Prelude.{◌<◌, ◌≤◌};

use bv_base::{MemSink, MemSource, SureSource};
use edit_server::{Status, run};
use obligation_board::OpenGate;
use std::alloc::{AllocError, Global};
use std::sync::Wait;
use std::test::Fail;
use std::thread::Threads;

/// These words, as a list.
pub fn words_of(alloc: Global, texts: &[&str]) -> Result<Vec<String>, AllocError> {
    let mut words = Vec::new(alloc);
    for text in texts {
        words.push(String::from_str(alloc, *text)?)?;
    }
    Ok(words)
}

/// Whether a run of these words over this input ends so and writes this.
fn runs<R: AllocGlobal + Threads + Wait + Sync>(
    rt: &R,
    words: &[&str],
    input: &str,
    output: &str,
    status: Status,
) -> Result<bool, AllocError> {
    let words = words_of(rt.alloc(), words)?;
    let bytes = Vec::from_slice(rt.alloc(), input.as_bytes())?;
    let mut source = MemSource::new(bytes, 7, Vec::new(rt.alloc()));
    let mut sink = MemSink::new(rt.alloc(), 5, Vec::new(rt.alloc()));
    sink.reserve(4096)?;
    let ended = run(rt, words.as_slice(), &mut source, &mut sink, &OpenGate);
    Ok(ended == status && sink.bytes() == output.as_bytes())
}

/// A program of one goal, which is proved.
const INCREMENT: &str =
    "procedure P() {\n  var x: int;\n  assume x > 0;\n  x := x + 1;\n  assert x > 1;\n}\n";

/// Programs, what `check` writes of them, and the status.
const CHECKS: [(&str, &str, Status); 15] = [
    ("", "", Status::Done),
    (" // nothing\n/* at all */", "", Status::Done),
    (INCREMENT, "P 5:3 assert proved\nP correct\n", Status::Done),
    (
        "procedure P() { var x: int; assume x > 0; x := x + 1; assert x > 2; }",
        "P 1:55 assert open\nP not proved\n",
        Status::NotAll,
    ),
    (
        "var x: int;\nvar y: int;\nprocedure Swap()\n  modifies x, y;\n  ensures x == old(y) && y == old(x);\n{ x, y := y, x; }\n",
        "Swap 3:3 ensures proved\nSwap correct\n",
        Status::Done,
    ),
    (
        "procedure Inc(n: int) returns (r: int);\n  ensures r == n + 1;\nprocedure Main() returns (x: int);\n  ensures x > 5;\nimplementation Main() returns (x: int) {\n  x := 5;\n  call x := Inc(x);\n  assert x == 6;\n}\n",
        "Main 4:3 assert proved\nMain 2:3 ensures proved\nMain correct\n",
        Status::Done,
    ),
    (
        "procedure R(b: bool) returns (r: int)\n  ensures r == 1;\n{\n  r := 0;\n  if (b) { return; }\n  r := 1;\n}\n",
        "R 2:3 ensures open\nR not proved\n",
        Status::NotAll,
    ),
    (
        "procedure V()\n  requires false;\n{ assert 1 == 2; }\n",
        "V 3:3 assert proved\nV correct\n",
        Status::Done,
    ),
    (
        "procedure W(x: int) {\n  assert x + 85070591730234615865843651857942052864 + 85070591730234615865843651857942052864 > x;\n}\n",
        "W 2:3 assert wide\nW not proved\n",
        Status::NotAll,
    ),
    (
        "procedure E(a: [int]int) { assert a[3 := a[3]] == a; }",
        "E 1:28 assert proved\nE correct\n",
        Status::Done,
    ),
    (
        "procedure Need(n: int);\n  requires n > 0;\nprocedure Use() {\n  call Need(1);\n  call Need(0);\n}\n",
        "Use 2:3 requires(1) proved\nUse 3:3 requires(1) open\nUse not proved\n",
        Status::NotAll,
    ),
    (
        "procedure S() { @ }",
        "fault Lex - 1:17 -\n",
        Status::Refused,
    ),
    (
        "procedure S() { assert",
        "fault Syntax - 1:23 -\n",
        Status::Refused,
    ),
    ("axiom y;", "fault Unknown @1 1:7 y\n", Status::Refused),
    (
        "function g(x: int): int;",
        "fault Unbuilt g 1:10 uninterpreted\n",
        Status::Refused,
    ),
];

#[test]
fn a_program_has_its_report_or_its_fault(rt: HostRuntime) -> Result<(), Fail> {
    for (text, output, status) in CHECKS {
        assert!(rt; runs(&rt, &["check"], text, output, status)?, "{text}");
    }
    Ok(())
}

/// Lines behind the program, and what `recheck` writes of them.
const PROOFS: [(&str, &str, Status); 8] = [
    (
        "(u 0 (f0)) (s 1) (e 4 3 v1) (c 2 5)\n",
        "accepted\n",
        Status::Done,
    ),
    (
        "(u 0 (f0)) (s 1) (e 4 3 v1) (c 2 5)\nno proof\n",
        "accepted\n",
        Status::Done,
    ),
    (
        "(u 0 (f0)) (s 1) (k 3 1 4 1) (k 2 1 5 1) (c 6 6)",
        "accepted\n",
        Status::Done,
    ),
    (
        "(u 0 (f0)) (s 1) (e 4 3 v1) (c 2 4)\n",
        "rejected P 5:3 assert node 4 rule close\n",
        Status::NotAll,
    ),
    (
        "(u 0 (f0)) (s 1) (k 2 -1 4 1) (c 2 5)\n",
        "rejected P 5:3 assert node 3 rule combine\n",
        Status::NotAll,
    ),
    ("(x\n", "bad P 5:3 assert 1\n", Status::NotAll),
    ("\n", "missing P 5:3 assert\n", Status::NotAll),
    ("", "missing P 5:3 assert\n", Status::NotAll),
];

#[test]
fn proofs_from_outside_are_checked(rt: HostRuntime) -> Result<(), Fail> {
    for (lines, output, status) in PROOFS {
        let text = format!(in rt.alloc(); "{INCREMENT}%%\n{lines}")?;
        assert!(rt;
            runs(&rt, &["recheck"], text.as_str(), output, status)?,
            "{lines}"
        );
    }
    assert!(rt;
        runs(
            &rt,
            &["recheck"],
            INCREMENT,
            "missing P 5:3 assert\n",
            Status::NotAll
        )?
    );
    assert!(rt; runs(&rt, &["recheck"], "%%", "accepted\n", Status::Done)?);
    assert!(rt;
        runs(
            &rt,
            &["recheck"],
            "@\n%%\n",
            "fault Lex - 1:1 -\n",
            Status::Refused
        )?
    );
    Ok(())
}

#[test]
fn words_that_are_no_command_are_refused(rt: HostRuntime) -> Result<(), Fail> {
    let line = "fault Usage - 0:0 -\n";
    assert!(rt; runs(&rt, &["check", "--turns", "0"], "", line, Status::Usage)?);
    assert!(rt; runs(&rt, &["recheck", "--turns", "5"], "", line, Status::Usage)?);
    assert!(rt; runs(&rt, &["check", "--workers", "1"], "", line, Status::Usage)?);
    assert!(rt; runs(&rt, &["smoke", "--workers", "0"], "", line, Status::Usage)?);
    assert!(rt; runs(&rt, &["serve", "--workers", "65"], "", line, Status::Usage)?);
    assert!(rt; runs(&rt, &["fly"], "", line, Status::Usage)?);
    assert!(rt; runs(&rt, &[], "", line, Status::Usage)?);
    Ok(())
}

/// How `check` of so many spaces ends, over a sink that holds at most a line.
fn check_spaces<R: AllocGlobal + Threads + Wait + Sync>(
    rt: &R,
    count: usize,
) -> Result<(Status, bool), AllocError> {
    let words = words_of(rt.alloc(), &["check"])?;
    let mut source = SureSource::new(vec![in rt.alloc(); b' '; count]?);
    let mut sink = MemSink::new(rt.alloc(), 5, Vec::new(rt.alloc()));
    sink.reserve(64)?;
    let ended = run(rt, words.as_slice(), &mut source, &mut sink, &OpenGate);
    Ok((ended, sink.bytes().is_empty()))
}

#[test]
fn an_input_may_have_16_777_216_bytes(rt: HostRuntime) -> Result<(), Fail> {
    assert_eq!(rt; check_spaces(&rt, 16_777_216)?, (Status::Done, true));
    assert_eq!(rt; check_spaces(&rt, 16_777_217)?, (Status::SessionFull, true));
    Ok(())
}

/// The one call that fails.
pub fn failing(alloc: Global, number: u64) -> Result<Vec<u64>, AllocError> {
    let mut fails = Vec::new(alloc);
    fails.push(number)?;
    Ok(fails)
}

/// How `check` of a small program ends where one read or one write of a byte fails, and what then
/// was written.
fn check_with_fault<R: AllocGlobal + Threads + Wait + Sync>(
    rt: &R,
    read: Vec<u64>,
    write: Vec<u64>,
) -> Result<(Status, Vec<u8>), AllocError> {
    let words = words_of(rt.alloc(), &["check"])?;
    let bytes = Vec::from_slice(rt.alloc(), b"procedure P() { }")?;
    let mut source = MemSource::new(bytes, 1, read);
    let mut sink = MemSink::new(rt.alloc(), 1, write);
    sink.reserve(64)?;
    let ended = run(rt, words.as_slice(), &mut source, &mut sink, &OpenGate);
    Ok((ended, Vec::from_slice(rt.alloc(), sink.bytes())?))
}

#[test]
fn a_read_that_fails_leaves_nothing_written(rt: HostRuntime) -> Result<(), Fail> {
    // 17 bytes, and the read that finds the end
    for k in 0..18 {
        let (ended, written) = check_with_fault(
            &rt,
            failing(rt.alloc(), k)?,
            Vec::new(rt.alloc()),
        )?;
        assert!(rt; ended == Status::ReadFault && written.is_empty());
    }
    let (ended, written) = check_with_fault(&rt, failing(rt.alloc(), 18)?, Vec::new(rt.alloc()))?;
    assert!(rt; ended == Status::Done && written.as_slice() == b"P correct\n".as_slice());
    Ok(())
}

#[test]
fn a_write_that_fails_leaves_the_bytes_before(rt: HostRuntime) -> Result<(), Fail> {
    for k in 0..10usize {
        let (ended, written) = check_with_fault(
            &rt,
            Vec::new(rt.alloc()),
            failing(rt.alloc(), k as u64)?,
        )?;
        assert!(rt; ended == Status::WriteFault && written.as_slice() == &b"P correct\n"[..k]);
    }
    let (ended, _) = check_with_fault(&rt, Vec::new(rt.alloc()), failing(rt.alloc(), 10)?)?;
    assert!(rt; ended == Status::Done);
    Ok(())
}
/// Whether `check` of a procedure with this body ends with NotAll.
fn is_not_proved<R: AllocGlobal + Threads + Wait + Sync>(
    rt: &R,
    body: &str,
) -> Result<bool, AllocError> {
    let mut text = String::from_str(
        rt.alloc(),
        "procedure P() { var x, y: int; var m: [int]int; var b: bool; ",
    )?;
    text.push_str(body)?;
    text.push_str(" }")?;
    let words = words_of(rt.alloc(), &["check"])?;
    let bytes = Vec::from_slice(rt.alloc(), text.as_bytes())?;
    let mut source = MemSource::new(bytes, 64, Vec::new(rt.alloc()));
    let mut sink = MemSink::new(rt.alloc(), 64, Vec::new(rt.alloc()));
    sink.reserve(4096)?;
    let ended = run(rt, words.as_slice(), &mut source, &mut sink, &OpenGate);
    Ok(ended == Status::NotAll && !sink.bytes().ends_with(b"P correct\n"))
}

/// Each body has an assertion that fails from the entry state beside it.
const FAILING: [&str; 20] = [
    "assert x > 0;", // x = 0
    "assert x == y;", // x = 0, y = 1
    "assume x > 0; x := x + 1; assert x > 2;", // x = 1
    "assume x <= y; assert x < y;", // x = 0, y = 0
    "assert x + x != 4;", // x = 2
    "assert x * x != 9;", // x = 3
    "x := y + 1; y := x + 1; assert y == x;", // x = 0, y = 0
    "assert x <= 170141183460469231731687303715884105727;", // x = 2^127
    "havoc x; assert x == y;", // y = 0, and 1 for x
    "if (x < y) { x := y; } assert x == y;", // x = 1, y = 0
    "if (*) { x := 1; } else { x := 2; } assert x == 1;", // the second branch
    "x := 0; while (x < 5) { x := x + 1; } assert x < 5;", // after five rounds
    "x := 0; while (x < 5) invariant x < 5; { x := x + 1; } assert true;", // in the fifth round
    "while (true) invariant x == y; { break; } assert x != y;", // x = 0, y = 0
    "A: while (x > 0) { x := x - 1; if (x == 3) { break A; } } assert x <= 0;", // x = 4
    "goto A, B; A: x := 1; B: assert x == 1;", // x = 0, by B
    "m[x] := y; assert m[y] == y;", // x = 0, y = 1, m[1] = 0
    "assert (forall k: int :: {m[k]} m[k] >= 0);", // m[0] = -1
    "assume (exists k: int :: {m[k]} m[k] == x); assert m[x] == x;", // x = 0, m[1] = 0, m[0] = 1
    "b := x < y; assert b || y < x;", // x = 0, y = 0
];

#[test]
fn what_fails_in_some_state_is_never_correct(rt: HostRuntime) -> Result<(), Fail> {
    for body in FAILING {
        assert!(rt; is_not_proved(&rt, body)?, "{body}");
    }
    Ok(())
}
