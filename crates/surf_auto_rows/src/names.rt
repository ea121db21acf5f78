// Names of cells and of the frame.
use std::test::Fail;
use surf_sync::{Code, frame_name, name_of, sync_laws};

#[test]
fn cells_have_names(rt: HostRuntime) -> Result<(), Fail> {
    sync_laws();
    let code = Code {
        current: 4294967295,
        generation: 10,
        colour: 0,
        previous: 254,
        reads: 5,
        acc: 2047,
    };
    let name = name_of(rt.alloc(), &code)?;
    assert!(rt; name.as_slice() == b"4294967295_10_0_254_5_2047".as_slice());
    let frame = frame_name(rt.alloc(), 10)?;
    assert!(rt; frame.as_slice() == b"E_10".as_slice());
    Ok(())
}
