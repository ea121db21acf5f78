// Sources and sinks over memory.
use std::test::Fail;
use surf_base::{MemorySink, MemorySource, Piece, Text, read_all, write_pieces};

#[test]
fn memory_is_read(rt: HostRuntime) -> Result<(), Fail> {
    let text = b"four".to_vec(rt.alloc())?;
    let mut source = MemorySource::new(text, 3, Vec::new(rt.alloc()));
    let bytes = read_all(rt.alloc(), &mut source, 4)?;
    assert!(rt; Text::new(bytes).bytes() == b"four".as_slice());
    Ok(())
}

#[test]
fn pieces_are_written(rt: HostRuntime) -> Result<(), Fail> {
    let mut sink = MemorySink::new(rt.alloc(), 100, 4, Vec::new(rt.alloc()))?;
    let pieces = [Piece::Text(b"at "), Piece::Wide(u128::MAX)];
    assert!(rt; write_pieces(&mut sink, &pieces).is_ok());
    assert!(rt; sink.bytes() == b"at 340282366920938463463374607431768211455".as_slice());
    Ok(())
}
