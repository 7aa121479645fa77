// Whole reads, lines and writes with ample memory, over memory and over std, and steps in a ledger.
ghost use Rattle.std.specs.Prelude.{◌≡◌, ◌<◌};

use bv_base::{
    Line, LineBuffer, LineFault, MemSink, MemSource, StdSink, StdSource, Steps, next_line,
    read_all, write_all,
};
use std::marker::Brand;
use std::sync::ledger::{Blank, Ledger};
use std::test::Fail;

#[test]
fn all_is_read_or_a_fault_is_told(rt: HostRuntime) -> Result<(), Fail> {
    let fails = vec![in rt.alloc(); 1u64, 5]?;
    let mut src = MemSource::new(b"abcdef".to_vec(rt.alloc())?, 2, fails);
    assert_eq!(rt; read_all(rt.alloc(), &mut src, 9), Err(LineFault::Read));
    assert_eq!(rt;
        read_all(rt.alloc(), &mut src, 4)?.as_slice(),
        b"cdef".as_slice()
    );
    let mut long = StdSource::new(b"abc".as_slice());
    assert_eq!(rt; read_all(rt.alloc(), &mut long, 2), Err(LineFault::Full));
    Ok(())
}

fn is_whole(line: &Line, text: &[u8]) -> bool {
    match line {
        Line::Whole(bytes) => bytes.as_slice() == text,
        Line::Long | Line::End => false,
    }
}

#[test]
fn lines_come_one_by_one_up_to_a_fault(rt: HostRuntime) -> Result<(), Fail> {
    let mut src = MemSource::new(
        b"ab\n\nlonger\nxyz".to_vec(rt.alloc())?,
        2,
        vec![in rt.alloc(); 8u64]?,
    );
    let mut buffer = LineBuffer::new(20);
    assert!(rt; is_whole(&next_line(rt.alloc(), &mut src, &mut buffer, 3)?, b"ab"));
    assert!(rt; is_whole(&next_line(rt.alloc(), &mut src, &mut buffer, 3)?, b""));
    assert!(rt; matches!(next_line(rt.alloc(), &mut src, &mut buffer, 3)?, Line::Long));
    assert!(rt; is_whole(&next_line(rt.alloc(), &mut src, &mut buffer, 3)?, b"xyz"));
    assert!(rt;
        matches!(
            next_line(rt.alloc(), &mut src, &mut buffer, 3),
            Err(LineFault::Read)
        )
    );
    Ok(())
}

#[test]
fn all_is_written_or_a_front_of_it(rt: HostRuntime) -> Result<(), Fail> {
    let mut sink = MemSink::new(rt.alloc(), 2, vec![in rt.alloc(); 1u64]?);
    sink.reserve(5)?;
    assert!(rt; write_all(&mut sink, b"abcd").is_err());
    assert!(rt; write_all(&mut sink, b"efg").is_ok());
    assert_eq!(rt; sink.bytes(), b"abefg".as_slice());
    let mut two = [0u8; 2];
    let mut full = StdSink::new(two.as_mut_slice());
    assert!(rt; write_all(&mut full, b"xyz").is_err());
    assert_eq!(rt; two, [b'x', b'y']);
    Ok(())
}

fn two_steps<L: Ledger>(blank: Blank)
    requires name { blank.name ≡ L.name }
    requires parts { blank.parts ≡ L.parts }
    requires some { 0 < blank.parts }
{
    let mut steps = Steps::<L>::new(blank);
    steps.tick();
    steps.tick();
}

#[test]
fn steps_are_counted_in_any_ledger() {
    two_steps::<Brand>(Blank::new(1));
}
