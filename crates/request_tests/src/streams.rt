//! Feeds and sinks in memory.

use std::test::Fail;
use tex_world::{Failed, Feed, MemFeed, MemSink, Sink};

// Reads once, into a buffer of two bytes.
fn next_two<I: Feed>(feed: &mut I) -> (Result<usize, Failed>, [u8; 2]) {
    let mut bytes = [0; 2];
    (feed.read(&mut bytes), bytes)
}

#[test]
fn feeds_in_pieces(rt: HostRuntime) -> Result<(), Fail> {
    let mut feed = MemFeed::new(b"hello".to_vec(rt.alloc())?, Some(2));
    let reads = [
        (Ok(2), *b"he"),
        (Err(Failed), *b"\0\0"),
        (Ok(2), *b"ll"),
        (Ok(1), *b"o\0"),
        (Ok(0), *b"\0\0"),
    ];
    for want in reads {
        assert!(rt; next_two(&mut feed) == want);
    }
    assert!(rt; feed.faults() == 1);
    Ok(())
}

// Whether the bytes were written.
fn takes<O: Sink>(sink: &mut O, bytes: &[u8]) -> bool {
    sink.put(bytes).is_ok()
}

#[test]
fn holds_what_was_put(rt: HostRuntime) {
    let mut sink = MemSink::new(rt.alloc(), Some(1));
    for (bytes, want) in [(b"ab", false), (b"cd", true), (b"ef", true)] {
        assert!(rt; takes(&mut sink, bytes) == want);
    }
    assert!(rt; sink.bytes() == b"cdef".as_slice());
    assert!(rt; sink.faults() == 1);
}
