// Commands beside workers; what is expected is written by hand from the rules.
use super::runs::words_of;
use bv_base::{MemSink, MemSource};
use edit_server::{Status, run};
use obligation_board::{Gate, OpenGate};
use std::alloc::AllocError;
use std::sync::Wait;
use std::sync::atomic::{AtomicU64, Ordering};
use std::test::Fail;
use std::thread::Threads;

/// Whether a run of these words over this input ends with Done and writes this.
fn writes<R: AllocGlobal + Threads + Wait + Sync, G: Gate + Sync>(
    rt: &R,
    words: &[&str],
    gate: &G,
    input: &str,
    output: &str,
) -> Result<bool, AllocError> {
    let list = words_of(rt.alloc(), words)?;
    let bytes = Vec::from_slice(rt.alloc(), input.as_bytes())?;
    let mut source = MemSource::new(bytes, 64, Vec::new(rt.alloc()));
    let mut sink = MemSink::new(rt.alloc(), 64, Vec::new(rt.alloc()));
    sink.reserve(4096)?;
    let ended = run(rt, list.as_slice(), &mut source, &mut sink, gate);
    Ok(ended == Status::Done && sink.bytes() == output.as_bytes())
}

/// A program is opened, an assertion of it changed, and a report asked for.
const REQUESTS: &str =
    "{\"op\":\"open\",\"text\":\"const limit: int;\\naxiom 1 <= limit;\\nfunction max(a: int, b: int): int { if a < b then b else a }\\nprocedure Larger(a: int, b: int) returns (r: int)\\n  ensures r == max(a, b);\\n{\\n  if (a < b) { r := b; } else { r := a; }\\n}\\nprocedure FindMax(m: [int]int, n: int) returns (x: int)\\n  requires limit <= n;\\n  ensures (forall k: int :: {m[k]} 0 <= k && k < n ==> m[k] <= x);\\n{\\n  var i: int;\\n  x := m[0];\\n  i := 1;\\n  while (i < n)\\n    invariant 1 <= i && i <= n;\\n    invariant (forall k: int :: {m[k]} 0 <= k && k < i ==> m[k] <= x);\\n  {\\n    call x := Larger(x, m[i]);\\n    i := i + 1;\\n  }\\n  assert x >= m[0];\\n}\\n\"}\n{\"op\":\"edit\",\"put\":[{\"name\":\"FindMax\",\"text\":\"procedure FindMax(m: [int]int, n: int) returns (x: int)\\n  requires limit <= n;\\n  ensures (forall k: int :: {m[k]} 0 <= k && k < n ==> m[k] <= x);\\n{\\n  var i: int;\\n  x := m[0];\\n  i := 1;\\n  while (i < n)\\n    invariant 1 <= i && i <= n;\\n    invariant (forall k: int :: {m[k]} 0 <= k && k < i ==> m[k] <= x);\\n  {\\n    call x := Larger(x, m[i]);\\n    i := i + 1;\\n  }\\n  assert m[0] <= x + 1;\\n}\\n\"}]}\n{\"op\":\"report\"}\n";

/// Seven goals, of which the second line builds those of one procedure.
const REPLIES: &str =
    "{\"goals\":7,\"rebuilt\":2,\"version\":1}\n{\"goals\":7,\"rebuilt\":1,\"version\":2}\n{\"report\":[\"Larger 2:3 ensures proved\",\"Larger correct\",\"FindMax 9:5 invariant-entry proved\",\"FindMax 10:5 invariant-entry proved\",\"FindMax 9:5 invariant-kept proved\",\"FindMax 10:5 invariant-kept proved\",\"FindMax 15:3 assert proved\",\"FindMax 3:3 ensures proved\",\"FindMax correct\"],\"version\":2}\n";

#[test]
fn a_session_writes_the_same_beside_workers(rt: HostRuntime) -> Result<(), Fail> {
    for workers in ["0", "4"] {
        assert!(rt;
            writes(
                &rt,
                &["serve", "--workers", workers],
                &OpenGate,
                REQUESTS,
                REPLIES
            )?,
            "{workers}"
        );
    }
    Ok(())
}

#[test]
fn a_generated_program_is_summed_up_beside_workers(rt: HostRuntime) -> Result<(), Fail> {
    for workers in ["0", "4"] {
        assert!(rt;
            writes(
                &rt,
                &["gen", "--seed", "1", "--size", "1", "--workers", workers],
                &OpenGate,
                "",
                "gen seed=1 size=1 bytes=253 goals=6 proved=6 open=0 turns=0 wide=0\n"
            )?,
            "{workers}"
        );
    }
    Ok(())
}

/// The first call goes on until a second has come, for so many turns at most.
#[derive(Drop)]
struct Meeting {
    calls: AtomicU64,
    meetings: AtomicU64,
}

impl Gate for Meeting {
    fn begin(&self, _claim: u64) {
        if self.calls.fetch_add(1, Ordering::SeqCst) > 0 {
            return;
        }
        for _ in 0..100_000_000u64 {
            if self.calls.load(Ordering::SeqCst) > 1 {
                self.meetings.fetch_add(1, Ordering::SeqCst);
                return;
            }
        }
    }
}

/// A program of two goals is opened, reported, put again as it is, and reported.
const TWICE: &str =
    "{\"op\":\"open\",\"text\":\"procedure P() { assert 1 == 1; assert 1 == 2; }\"}\n{\"op\":\"report\"}\n{\"op\":\"edit\",\"put\":[{\"name\":\"P\",\"text\":\"procedure P() { assert 1 == 1; assert 1 == 2; }\"}]}\n{\"op\":\"report\"}\n{\"op\":\"quit\"}\n";

const TWICE_REPLIES: &str =
    "{\"goals\":2,\"rebuilt\":1,\"version\":1}\n{\"report\":[\"P 1:17 assert proved\",\"P 1:32 assert open\",\"P not proved\"],\"version\":1}\n{\"goals\":2,\"rebuilt\":0,\"version\":2}\n{\"report\":[\"P 1:17 assert proved\",\"P 1:32 assert open\",\"P not proved\"],\"version\":2}\n{\"ok\":true}\n";

#[test]
fn two_searches_run_at_once_and_none_twice(rt: HostRuntime) -> Result<(), Fail> {
    let gate = Meeting {
        calls: AtomicU64::new(0),
        meetings: AtomicU64::new(0),
    };
    assert!(rt;
        writes(
            &rt,
            &["serve", "--workers", "2"],
            &gate,
            TWICE,
            TWICE_REPLIES
        )?
    );
    assert_eq!(rt; gate.meetings.load(Ordering::SeqCst), 1);
    assert_eq!(rt; gate.calls.load(Ordering::SeqCst), 2);
    Ok(())
}
