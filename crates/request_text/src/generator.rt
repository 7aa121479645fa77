// Programs with numbers that are drawn from a seed.
ghost use Rattle.std.specs.Prelude.{◌≡◌, ◌+◌, ◌^◌, ◌<◌, ◌++◌, codes, decimal, IfOk, OnOk};
ghost use Rattle.request_text.specs.Generated.{next_state, drawn, name_text, contract_text, loop_text, procedure_text, generate};

use itoa::Buffer;
use std::alloc::{AllocError, Global};

fn put(out: &mut Vec<u8>, bytes: &[u8]) -> Result<(), AllocError>
    ensures { OnOk result (out.new.items ≡ out.old.items ++ bytes.now) }
{
    out.extend_from_slice(bytes)?;
    Ok(())
}

fn put_number(out: &mut Vec<u8>, number: u64) -> Result<(), AllocError>
    ensures { OnOk result (out.new.items ≡ out.old.items ++ decimal number) }
{
    let mut buffer = Buffer::new();
    put(out, buffer.format(number).as_bytes())
}

// The state after one more draw.
fn next_state(state: u64) -> u64
    requires { state < 2 ^ 32 }
    ensures next { result ≡ next_state state }
    ensures small { result < 2 ^ 31 }
{
    (state * 1_103_515_245 + 12_345) % 2_147_483_648
}

// The number that a draw gives.
fn drawn(state: u64) -> u64
    ensures number { result ≡ drawn state }
    ensures small { result < 100 }
{
    state / 65_536 % 100
}

// Where a procedure begins.
fn put_name(out: &mut Vec<u8>, number: u64) -> Result<(), AllocError>
    ensures { OnOk result (out.new.items ≡ out.old.items ++ name_text number) }
{
    put(out, b"procedure P")?;
    put_number(out, number)?;
    put(out, b"(x: int) returns (r: int)\n")?;
    Ok(())
}

// What it requires and promises.
fn put_contract(out: &mut Vec<u8>, a: u64, promised: u64) -> Result<(), AllocError>
    ensures { OnOk result (out.new.items ≡ out.old.items ++ contract_text a promised) }
{
    put(out, b"  requires ")?;
    put_number(out, a)?;
    put(out, b" <= x;\n  ensures r >= ")?;
    put_number(out, promised)?;
    put(out, b";\n")?;
    Ok(())
}

// Its body, which counts to b.
#[tactic(auto, using(crate::proofs::Joined::behind))]
fn put_loop(out: &mut Vec<u8>, b: u64) -> Result<(), AllocError>
    ensures { OnOk result (out.new.items ≡ out.old.items ++ loop_text b) }
{
    put(
        out,
        b"{\n  var i: int;\n  i := 0;\n  r := x;\n  while (i < ",
    )?;
    put_number(out, b)?;
    put(out, b")\n    invariant 0 <= i && i <= ")?;
    put_number(out, b)?;
    put(
        out,
        b";\n    invariant r == x + i;\n  {\n    i := i + 1;\n    r := r + 1;\n  }\n  assert r == x + ",
    )?;
    put_number(out, b)?;
    put(out, b";\n}\n")
}

#[tactic(auto, using(crate::proofs::Joined::behind))]
fn put_procedure(out: &mut Vec<u8>, number: u64, a: u64, b: u64) -> Result<(), AllocError>
    requires { a + b < 200 }
    ensures { OnOk result (out.new.items ≡ out.old.items ++ procedure_text number a b) }
{
    put_name(out, number)?;
    put_contract(out, a, a + b)?;
    put_loop(out, b)
}

/// The text of as many procedures as the size, `P0`, `P1` and so on. Each takes two draws from the
/// seed, a and b, and counts to b: given a number from a on, it promises one from a + b on.
pub fn generate(alloc: Global, seed: u32, size: u32) -> Result<Vec<u8>, AllocError>
    ensures { IfOk result (λ v. v.items ≡ generate seed size) }
{
    let mut out = Vec::new(alloc);
    let mut state = u64::from(seed);
    for k in 0..size {
        let first = next_state(state);
        let second = next_state(first);
        put_procedure(&mut out, u64::from(k), drawn(first), drawn(second))?;
        state = second;
    }
    Ok(out)
}
