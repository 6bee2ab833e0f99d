//! Sources and sinks: what they give, take and refuse, and how a text comes to a sink through a
//! buffer.

use bale_items::{bits_of, value_of};
use bale_types::{Failed, MemSink, MemSource, Out, Sink, Source};
use std::test::Fail;

#[test]
fn a_source_gives_and_fails_as_told(rt: HostRuntime) -> Result<(), Fail> {
    let mut source = MemSource::new(rt.alloc(), b"abcdefg", 3, &[2, 4])?;
    let calls = [
        (2, Ok(2), b"ab"),
        (2, Err(Failed), b"ab"),
        (4, Ok(3), b"cd"),
        (4, Err(Failed), b"cd"),
        (4, Ok(2), b"fg"),
        (4, Ok(0), b"fg"),
    ];
    let mut buffer = [0; 4];
    for (room, answer, front) in calls {
        assert_eq!(rt; source.read(&mut buffer[..room]), answer);
        assert_eq!(rt; &buffer[..2], front.as_slice());
    }
    Ok(())
}

#[test]
fn a_sink_takes_and_fails_as_told(rt: HostRuntime) -> Result<(), Fail> {
    let mut sink = MemSink::new(rt.alloc(), 6, 4, &[2])?;
    let calls = [
        (b"abcdef".as_slice(), Ok(4)),
        (b"xy", Err(Failed)),
        (b"e", Ok(1)),
        (b"fgh", Ok(1)),
        (b"gh", Err(Failed)),
    ];
    for (piece, answer) in calls {
        assert!(rt; piece.len() > 0);
        assert_eq!(rt; sink.write(piece), answer);
    }
    assert_eq!(rt; sink.taken(), b"abcdef".as_slice());
    Ok(())
}

#[test]
fn words_are_twos_complement(rt: HostRuntime) {
    let pairs = [
        (0, 0),
        (5, 5),
        (-1, u64::MAX),
        (i64::MAX, 0x7fff_ffff_ffff_ffff),
        (i64::MIN, 0x8000_0000_0000_0000),
    ];
    for (number, word) in pairs {
        assert_eq!(rt; bits_of(number), word);
        assert_eq!(rt; value_of(word), number);
    }
}

#[test]
fn numbers_are_written_in_decimal(rt: HostRuntime) -> Result<(), Fail> {
    let mut sink = MemSink::new(rt.alloc(), 100, 5, &[])?;
    let mut out = Out::new(&mut sink);
    for number in [0, -7, i64::MAX, i64::MIN] {
        out.number(number)?;
        out.byte(b' ')?;
    }
    out.flush()?;
    assert_eq!(rt;
        sink.taken(),
        b"0 -7 9223372036854775807 -9223372036854775808 ".as_slice()
    );
    Ok(())
}

/// Writes more than a buffer holds, some of it over the end of one.
fn write_much(out: &mut Out<'_, MemSink>, letters: &[u8]) -> Result<(), Failed> {
    out.text(letters)?;
    out.byte(b'b')?;
    out.text(letters)?;
    out.text(b"ccc")?;
    out.flush()?;
    out.flush()
}

#[test]
fn a_full_buffer_is_handed_over(rt: HostRuntime) -> Result<(), Fail> {
    let letters = vec![in rt.alloc(); b'a'; 16_383]?;
    let mut sink = MemSink::new(rt.alloc(), 40_000, 5, &[])?;
    write_much(&mut Out::new(&mut sink), &letters)?;
    let taken = sink.taken();
    assert_eq!(rt; taken.len(), 32_770);
    assert_eq!(rt; &taken[16_382..16_385], b"aba".as_slice());
    assert_eq!(rt; &taken[32_766..], b"accc".as_slice());
    Ok(())
}

/// Writes a text and hands the rest of it over.
fn write_all(out: &mut Out<'_, MemSink>, text: &[u8]) -> Result<(), Failed> {
    out.text(text)?;
    out.flush()
}

/// Two full buffers and a byte are three writes: a fourth that would fail is never made.
#[test]
fn a_full_buffer_is_one_write(rt: HostRuntime) -> Result<(), Fail> {
    let letters = vec![in rt.alloc(); b'a'; 32_769]?;
    for (fails, answer) in [(3, Err(Failed)), (4, Ok(()))] {
        let mut sink = MemSink::new(rt.alloc(), 40_000, 40_000, &[fails])?;
        assert_eq!(rt; write_all(&mut Out::new(&mut sink), &letters), answer);
    }
    Ok(())
}

/// Answers of a flush that fails, and of what comes after it.
fn flush_twice(out: &mut Out<'_, MemSink>) -> [Result<(), Failed>; 4] {
    [
        out.text(b"abcdefgh"),
        out.flush(),
        out.byte(b'i'),
        out.flush(),
    ]
}

#[test]
fn what_a_failed_flush_left_still_waits(rt: HostRuntime) -> Result<(), Fail> {
    let mut sink = MemSink::new(rt.alloc(), 10_000, 5, &[2])?;
    let answers = flush_twice(&mut Out::new(&mut sink));
    assert_eq!(rt; answers, [Ok(()), Err(Failed), Ok(()), Ok(())]);
    assert_eq!(rt; sink.taken(), b"abcdefghi".as_slice());
    Ok(())
}

/// Answers of calls at a buffer that is full and can't be handed over at first.
fn write_past(out: &mut Out<'_, MemSink>, letters: &[u8]) -> [Result<(), Failed>; 4] {
    [
        out.text(letters),
        out.byte(b'x'),
        out.byte(b'b'),
        out.flush(),
    ]
}

#[test]
fn what_a_failed_call_left_still_waits(rt: HostRuntime) -> Result<(), Fail> {
    let letters = vec![in rt.alloc(); b'a'; 16_384]?;
    let mut sink = MemSink::new(rt.alloc(), 20_000, 16_384, &[1, 2])?;
    let answers = write_past(&mut Out::new(&mut sink), &letters);
    assert_eq!(rt; answers, [Err(Failed), Err(Failed), Ok(()), Ok(())]);
    let taken = sink.taken();
    assert_eq!(rt; taken.len(), 16_385);
    assert_eq!(rt; &taken[16_383..], b"ab".as_slice());
    Ok(())
}
