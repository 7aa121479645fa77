// How deep texts nest: two hundred nestings are read, and one more is too deep.
use super::{declared, is_refused};
use bpl_parse::Fault::{self, Deep, Syntax, Wide};
use std::alloc::Global;
use std::test::Fail;

/// The first and the last text once, the second and the fourth so many times, round the third.
pub(super) fn nested(alloc: Global, parts: [&[u8]; 5], times: u32) -> Result<Vec<u8>, Fail> {
    let [before, opening, core, closing, after] = parts;
    let mut text = Vec::new(alloc);
    text.extend_from_slice(before)?;
    for _ in 0..times {
        text.extend_from_slice(opening)?;
    }
    text.extend_from_slice(core)?;
    for _ in 0..times {
        text.extend_from_slice(closing)?;
    }
    text.extend_from_slice(after)?;
    Ok(text)
}

/// A nested text, how often it may nest, and the byte at which it is too deep with one more.
type Nestings<'a> = &'a [([&'a [u8]; 5], u32, u32)];

const NESTINGS: Nestings = &[
    ([b"axiom ", b"(", b"x", b")", b";"], 200, 6 + 201),
    ([b"axiom ", b"!", b"x", b"", b";"], 200, 6 + 201),
    ([b"axiom ", b"f(", b"x", b")", b";"], 200, 6 + 2 * 201),
    (
        [b"axiom ", b"m[i := ", b"x", b"]", b";"],
        200,
        6 + 7 * 200 + 2,
    ),
    (
        [b"axiom ", b"if a then b else ", b"x", b"", b";"],
        200,
        6 + 17 * 200 + 3,
    ),
    (
        [b"axiom ", b"(forall x: int :: ", b"x", b")", b";"],
        200,
        6 + 18 * 200 + 1,
    ),
    ([b"axiom {:k ", b"(", b"x", b")", b"} x;"], 199, 10 + 200),
    (
        [b"type T = ", b"[int]", b"int", b"", b";"],
        200,
        9 + 5 * 200 + 1,
    ),
    (
        [b"function f(", b"(", b"int", b")", b"): int;"],
        199,
        11 + 200,
    ),
    (
        [b"procedure P() { m[", b"(", b"x", b")", b"] := 1; }"],
        198,
        18 + 199,
    ),
    (
        [b"procedure P() {", b"while (*) {", b"break;", b"}", b"}"],
        199,
        15 + 11 * 199 + 7,
    ),
    (
        [b"procedure P() {", b"if (*) {} else {", b"", b"}", b"}"],
        199,
        15 + 16 * 199 + 4,
    ),
];

#[test]
fn two_hundred_nestings_are_read(rt: HostRuntime) -> Result<(), Fail> {
    for (parts, times, at) in NESTINGS {
        let text = nested(rt.alloc(), *parts, *times)?;
        assert!(&rt; declared(&rt, rt.alloc(), &text).is_ok(), "{parts:?}");
        let text = nested(rt.alloc(), *parts, *times + 1)?;
        is_refused(&rt, rt.alloc(), &text, Deep { at: *at });
    }
    Ok(())
}

/// What stands behind one another: branches, procedures, labels, operands, indices.
const CHAINS: &[[&[u8]; 5]] = &[
    [b"procedure P() { ", b"if (*) { } else ", b"{ }", b"", b" }"],
    [b"", b"procedure P() { } ", b"", b"", b""],
    [b"procedure P() { ", b"l: ", b"return;", b"", b" }"],
    [b"axiom ", b"a ==> ", b"a", b"", b";"],
    [b"axiom ", b"a - ", b"a", b"", b";"],
    [b"axiom m", b"[0]", b"", b"", b";"],
];

#[test]
fn chains_do_not_nest(rt: HostRuntime) -> Result<(), Fail> {
    for parts in CHAINS {
        let text = nested(rt.alloc(), *parts, 300)?;
        assert!(&rt; declared(&rt, rt.alloc(), &text).is_ok(), "{parts:?}");
    }
    Ok(())
}

const WIDE_NUMBER: &[u8] = b"170141183460469231731687303715884105728";

/// A number of 2^127, in parentheses and behind them, and what is no expression.
const FAULTS: &[([&[u8]; 5], u32, Fault)] = &[
    (
        [b"axiom ", b"(", WIDE_NUMBER, b")", b";"],
        200,
        Wide { at: 206 },
    ),
    (
        [b"axiom ", b"(", WIDE_NUMBER, b")", b";"],
        201,
        Deep { at: 207 },
    ),
    (
        [b"axiom x + ", b"(", b"x", b") )", WIDE_NUMBER],
        1,
        Syntax { at: 14 },
    ),
    ([b"axiom ", b"(", b"", b")", b";"], 201, Syntax { at: 207 }),
    ([b"axiom ", b"(", b"x", b")", b" );"], 201, Deep { at: 207 }),
    (
        [b"axiom ", b"x", b" ", b"", WIDE_NUMBER],
        1,
        Syntax { at: 8 },
    ),
];

#[test]
fn the_first_token_with_a_fault_counts(rt: HostRuntime) -> Result<(), Fail> {
    for (parts, times, expected) in FAULTS {
        let text = nested(rt.alloc(), *parts, *times)?;
        is_refused(&rt, rt.alloc(), &text, *expected);
    }
    Ok(())
}
