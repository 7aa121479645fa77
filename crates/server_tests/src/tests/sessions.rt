// Whole sessions over input and output in memory; what is expected is written by hand from the rules.
use super::runs::failing;
use bv_base::{MemSink, MemSource};
use edit_server::{Status, run};
use obligation_board::OpenGate;
use std::alloc::AllocError;
use std::sync::Wait;
use std::test::Fail;
use std::thread::Threads;

/// An open, a report and a quit: lines of 54, 16 and 14 bytes.
const REQUESTS: &[u8; 84] =
    b"{\"op\":\"open\",\"text\":\"procedure P() { assert true; }\"}\n{\"op\":\"report\"}\n{\"op\":\"quit\"}\n";

/// Their replies: lines of 36, 60 and 12 bytes.
const REPLIES: &[u8; 108] =
    b"{\"goals\":1,\"rebuilt\":1,\"version\":1}\n{\"report\":[\"P 1:17 assert proved\",\"P correct\"],\"version\":1}\n{\"ok\":true}\n";

/// How a session over these bytes, beside so many workers, ends where these reads or writes of a byte
/// fail, and what was written.
fn serve<R: AllocGlobal + Threads + Wait + Sync>(
    rt: &R,
    workers: &str,
    input: &[u8],
    reads: Vec<u64>,
    writes: Vec<u64>,
) -> Result<(Status, Vec<u8>), AllocError> {
    let mut words = Vec::new(rt.alloc());
    words.push(String::from_str(rt.alloc(), "serve")?)?;
    words.push(String::from_str(rt.alloc(), "--workers")?)?;
    words.push(String::from_str(rt.alloc(), workers)?)?;
    let mut source = MemSource::new(Vec::from_slice(rt.alloc(), input)?, 1, reads);
    let mut sink = MemSink::new(rt.alloc(), 1, writes);
    sink.reserve(1000)?;
    let ended = run(rt, words.as_slice(), &mut source, &mut sink, &OpenGate);
    Ok((ended, Vec::from_slice(rt.alloc(), sink.bytes())?))
}

/// Whether each read of these, where it fails, leaves these bytes written.
fn reads_leave<R: AllocGlobal + Threads + Wait + Sync>(
    rt: &R,
    workers: &str,
    first: u64,
    behind: u64,
    left: &[u8],
) -> Result<bool, AllocError> {
    for k in first..behind {
        let (ended, written) = serve(
            rt,
            workers,
            REQUESTS.as_slice(),
            failing(rt.alloc(), k)?,
            Vec::new(rt.alloc()),
        )?;
        if ended != Status::ReadFault || written.as_slice() != left {
            return Ok(false);
        }
    }
    Ok(true)
}

/// Whether the read behind the quit is never made, and the one that finds the end of an input without a
/// quit is.
fn ends_are_found<R: AllocGlobal + Threads + Wait + Sync>(
    rt: &R,
    workers: &str,
) -> Result<bool, AllocError> {
    let (ended, written) = serve(
        rt,
        workers,
        REQUESTS.as_slice(),
        failing(rt.alloc(), 84)?,
        Vec::new(rt.alloc()),
    )?;
    let (unended, first) = serve(
        rt,
        workers,
        &REQUESTS[..54],
        failing(rt.alloc(), 54)?,
        Vec::new(rt.alloc()),
    )?;
    Ok(
        ended == Status::Done
            && written.as_slice() == REPLIES.as_slice()
            && unended == Status::ReadFault
            && first.as_slice() == &REPLIES[..36],
    )
}

/// Alone, and beside two workers.
const WORKERS: [&str; 2] = ["0", "2"];

#[test]
fn a_read_that_fails_leaves_the_replies_before(rt: HostRuntime) -> Result<(), Fail> {
    for workers in WORKERS {
        assert!(rt; reads_leave(&rt, workers, 0, 54, b"".as_slice())?);
        assert!(rt; reads_leave(&rt, workers, 54, 70, &REPLIES[..36])?);
        assert!(rt; reads_leave(&rt, workers, 70, 84, &REPLIES[..96])?);
        assert!(rt; ends_are_found(&rt, workers)?);
    }
    Ok(())
}

/// How a session ends of which one write of a byte fails, and what was written.
fn broken<R: AllocGlobal + Threads + Wait + Sync>(
    rt: &R,
    workers: &str,
    write: u64,
) -> Result<(Status, Vec<u8>), AllocError> {
    serve(
        rt,
        workers,
        REQUESTS.as_slice(),
        Vec::new(rt.alloc()),
        failing(rt.alloc(), write)?,
    )
}

#[test]
fn a_write_that_fails_leaves_the_bytes_of_the_replies_before(rt: HostRuntime) -> Result<(), Fail> {
    for workers in WORKERS {
        for k in 0..108usize {
            let (ended, written) = broken(&rt, workers, k as u64)?;
            assert!(rt; ended == Status::WriteFault && written.as_slice() == &REPLIES[..k]);
        }
        let (ended, written) = broken(&rt, workers, 108)?;
        assert!(rt; ended == Status::Done && written.as_slice() == REPLIES.as_slice());
    }
    Ok(())
}

/// Whether a session over one line of so many letters writes this.
fn line_is_answered<R: AllocGlobal + Threads + Wait + Sync>(
    rt: &R,
    count: usize,
    reply: &[u8],
) -> Result<bool, AllocError> {
    let line = vec![in rt.alloc(); b'a'; count]?;
    let (ended, written) = serve(rt, "0", &line, Vec::new(rt.alloc()), Vec::new(rt.alloc()))?;
    Ok(ended == Status::Done && written.as_slice() == reply)
}

#[test]
fn a_line_may_have_1_048_576_bytes(rt: HostRuntime) -> Result<(), Fail> {
    assert!(rt; line_is_answered(&rt, 1_048_576, b"{\"error\":\"Json\"}\n")?);
    assert!(rt; line_is_answered(&rt, 1_048_577, b"{\"error\":\"Long\"}\n")?);
    Ok(())
}
