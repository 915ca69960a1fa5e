//! What no clause says: that the memory sources and sinks succeed with ample memory, in the pieces that they are
//! told, and that an `Out` writes nothing behind a failure.
use crate::*;
use std::alloc::Global;
use std::process::Abort;
use std::test::Fail;

fn mem_source(
    alloc: Global,
    bytes: &[u8],
    cuts: &[usize],
    failing: &[u64],
) -> Result<MemSource, Fail> {
    Ok(MemSource::new(
        bytes.to_vec(alloc)?,
        cuts.to_vec(alloc)?,
        failing.to_vec(alloc)?,
    ))
}

#[test]
fn a_source_gives_its_pieces_and_fails_the_listed_calls(rt: HostRuntime) -> Result<(), Fail> {
    let mut source = mem_source(rt.alloc(), b"abcdefgh", &[2, 0, 3], &[1, 3])?;
    let wanted = [
        Ok(b"ab".as_slice()),
        Err(Failed),
        Ok(b"c"),
        Err(Failed),
        Ok(b"def"),
        Ok(b"gh"),
        Ok(b""),
        Ok(b""),
    ];
    for (call, want) in wanted.into_iter().enumerate() {
        let mut buf = [0u8; 4];
        match (source.read(&mut buf), want) {
            (Ok(n), Ok(piece)) => assert_eq!(rt; buf.get(..n), Some(piece), "call {call}"),
            (Err(_), Err(_)) => {}
            (got, _) => panic!(rt; "call {call}: {got:?}"),
        }
    }
    Ok(())
}

fn put_all(
    rt: &(impl Abort + AllocGlobal),
    most: usize,
    failing: &[u64],
    wanted: &[u8],
    failed: bool,
) -> Result<(), Fail> {
    let alloc = rt.alloc();
    let sink = MemSink::new(Vec::new(alloc), most, failing.to_vec(alloc)?);
    let mut out = Out::new(sink);
    for piece in [b"one ".as_slice(), b"", b"two ", b"three"] {
        out.put(piece);
    }
    assert_eq!(rt; out.failed(), failed);
    assert_eq!(rt; out.into_sink().bytes(), wanted);
    Ok(())
}

#[test]
fn an_out_writes_all_until_it_fails(rt: HostRuntime) -> Result<(), Fail> {
    put_all(&rt, 100, &[], b"one two three", false)?;
    put_all(&rt, 1, &[], b"one two three", false)?;
    put_all(&rt, 100, &[0], b"", true)?;
    put_all(&rt, 100, &[1], b"one ", true)?;
    put_all(&rt, 3, &[3], b"one two", true)?;
    put_all(&rt, 100, &[3], b"one two three", false)
}

#[test]
fn a_sure_source_gives_all_its_bytes(rt: HostRuntime) {
    let mut source = SureSource::new(b"abcde");
    for want in [b"abc".as_slice(), b"de", b""] {
        let mut buf = [0u8; 3];
        match source.read(&mut buf) {
            Ok(n) => assert_eq!(rt; buf.get(..n), Some(want)),
            Err(_) => panic!(rt; "it failed"),
        }
    }
    assert_eq!(rt; SureSink.write(b"abc"), Ok(3));
}
