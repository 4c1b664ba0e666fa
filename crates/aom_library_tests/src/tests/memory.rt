//! A sink and a reader over memory. A trial of these tests may refuse a request for memory: then the sink has failed, and keeps what it has.
use aom_library::debug::{Reader, SliceReader};
use aom_library::run::{MemorySink, Sink};
use std::test::Fail;

#[test]
fn a_sink_has_what_it_was_sent_or_has_failed(rt: HostRuntime) -> Result<(), Fail> {
    let mut sink = MemorySink::new(rt.alloc());
    let count = sink.put(b"sent");
    assert!(rt; sink.has_failed() == (count == 0));
    assert!(rt; sink.has_failed() == sink.text.is_empty());
    let more = sink.put(b" more");
    assert!(rt; sink.has_failed() == (more == 0));
    assert!(rt; sink.has_failed() || sink.text.as_slice() == b"sent more".as_slice());
    Ok(())
}

#[test]
fn a_slice_is_read_piece_by_piece(rt: HostRuntime) -> Result<(), Fail> {
    let mut reader = SliceReader::new(b"abcde");
    let mut piece = [0; 3];
    assert!(rt; reader.get(&mut piece) == Some(3));
    assert!(rt; piece.as_slice() == b"abc".as_slice());
    assert!(rt; reader.get(&mut piece) == Some(2));
    assert!(rt; piece.as_slice() == b"dec".as_slice());
    assert!(rt; reader.get(&mut piece) == Some(0));
    Ok(())
}
