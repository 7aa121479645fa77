// A session over lines in memory.
ghost use Rattle.std.specs.Prelude.{⊤};

use bv_base::{MemSink, MemSource};
use line_server::{Answerer, Ending, Reply, serve};
use std::alloc::{AllocError, Global};
use std::test::Fail;

/// Gives each line back, and ends with a line of one byte.
#[derive(Drop)]
struct Echo {
    alloc: Global,
}

impl Answerer for Echo {
    ghost LONGEST = { 3 };

    ghost replies = { λ _ _ _ _ _. ⊤ };

    ghost fails = { λ _ _ _. ⊤ };

    ghost answered = { λ _ _. ⊤ };

    const LONGEST: usize = 3;

    fn answer(&mut self, line: &[u8]) -> Result<Reply, AllocError> {
        let mut text = Vec::from_slice(self.alloc, line)?;
        text.push(b'\n')?;
        Ok(Reply {
            text,
            is_last: line.len() == 1,
        })
    }

    fn answer_long(&mut self) -> Result<Reply, AllocError> {
        Ok(Reply {
            text: Vec::from_slice(self.alloc, b"long\n")?,
            is_last: false,
        })
    }
}

#[test]
fn each_line_has_one_reply_up_to_the_last(rt: HostRuntime) -> Result<(), Fail> {
    let alloc = rt.alloc();
    let mut echo = Echo { alloc };
    let mut source = MemSource::new(
        b"ab\n\nlonger\nxyz\nq\nrest".to_vec(alloc)?,
        2,
        Vec::new(alloc),
    );
    let mut sink = MemSink::new(alloc, 3, Vec::new(alloc));
    sink.reserve(20)?;
    assert_eq!(rt;
        serve(alloc, 100, &mut echo, &mut source, &mut sink),
        Ending::Done
    );
    assert_eq!(rt; sink.bytes(), b"ab\nlong\nxyz\nq\n".as_slice());
    Ok(())
}

#[test]
fn a_failed_read_ends_it_behind_the_whole_lines(rt: HostRuntime) -> Result<(), Fail> {
    let alloc = rt.alloc();
    let mut echo = Echo { alloc };
    let fails = vec![in alloc; 2u64]?;
    let mut source = MemSource::new(b"ab\ncd\nef\n".to_vec(alloc)?, 4, fails);
    let mut sink = MemSink::new(alloc, 3, Vec::new(alloc));
    sink.reserve(20)?;
    assert_eq!(rt;
        serve(alloc, 100, &mut echo, &mut source, &mut sink),
        Ending::ReadFault
    );
    assert_eq!(rt; sink.bytes(), b"ab\ncd\n".as_slice());
    Ok(())
}
