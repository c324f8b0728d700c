// The command `body` over outsides that fail or take little at once.

use crate::body::{SUM, SUM_TEXT, shelf_of, words_of};
use dc_outside::{FreeSink, MemSink, OpenGate};
use ilspy_cli::{Status, run};
use std::test::Fail;

#[test]
fn a_fault_of_the_shelf_is_a_read_fault(rt: HostRuntime) -> Result<(), Fail> {
    let alloc = rt.alloc();
    let words = words_of(alloc, &["ilspy", "body", "f"])?;
    let mut shelf = shelf_of(alloc, &SUM, &[1])?;
    let mut out = MemSink::of(alloc, 4096, Vec::new(alloc));
    out.reserve(1_048_576)?;
    let status = run(&rt, alloc, &words, &mut shelf, &mut out, &OpenGate);
    assert_eq!(rt; status, Status::ReadFault);
    assert_eq!(rt; out.written(), b"fault: cannot read f\n".as_slice());
    Ok(())
}

#[test]
fn a_sink_that_takes_little_gets_all(rt: HostRuntime) -> Result<(), Fail> {
    let alloc = rt.alloc();
    let words = words_of(alloc, &["ilspy", "body", "f"])?;
    let mut shelf = shelf_of(alloc, &SUM, &[])?;
    let mut out = MemSink::of(alloc, 3, Vec::new(alloc));
    out.reserve(1_048_576)?;
    let status = run(&rt, alloc, &words, &mut shelf, &mut out, &OpenGate);
    assert_eq!(rt; status, Status::Done);
    assert_eq!(rt; out.written(), SUM_TEXT.as_bytes());
    let mut free = FreeSink::of();
    let mut shelf = shelf_of(alloc, &SUM, &[])?;
    let status = run(&rt, alloc, &words, &mut shelf, &mut free, &OpenGate);
    assert_eq!(rt; status, Status::Done);
    assert_eq!(rt; free.taken(), SUM_TEXT.len() as u64);
    Ok(())
}

#[test]
fn a_sink_that_fails_has_a_front(rt: HostRuntime) -> Result<(), Fail> {
    let alloc = rt.alloc();
    let words = words_of(alloc, &["ilspy", "body", "f"])?;
    let mut shelf = shelf_of(alloc, &SUM, &[])?;
    let mut out = MemSink::of(alloc, 16, [2].to_vec(alloc)?);
    out.reserve(1_048_576)?;
    let status = run(&rt, alloc, &words, &mut shelf, &mut out, &OpenGate);
    assert_eq!(rt; status, Status::WriteFault);
    assert_eq!(rt; out.written(), b"static int M(int".as_slice());
    Ok(())
}
