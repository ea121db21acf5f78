// Faults of the source, of the output and of the notes.
use crate::calling::{Outside, call, calm};
use std::test::Fail;

const INPUT: &[u8] =
    b"!START_TRANSITION_RULES\n(1) A + B -> C + D\n!END_TRANSITION_RULES\n!START_INIT_STATE\nA B\n!END_INIT_STATE\n";

// The input is read in 15 pieces of 7 bytes, and one more call finds its end.
#[test]
fn faults_of_reading_are_answered(rt: HostRuntime) -> Result<(), Fail> {
    for k in 1..17u64 {
        let outside = Outside {
            read: 7,
            bad_read: k,
            ..calm()
        };
        let answer = call(rt.alloc(), "run 1 10", INPUT, outside)?;
        assert!(rt; answer.status == 4 && answer.out.is_empty(), "read {k}");
        assert_eq!(rt; answer.notes.as_slice(), b"surf: read fault\n".as_slice());
    }
    Ok(())
}

// The output is written in 20 pieces of 4 bytes.
#[test]
fn faults_of_writing_are_answered(rt: HostRuntime) -> Result<(), Fail> {
    let whole = call(rt.alloc(), "run 1 10", INPUT, calm())?;
    for k in 1..21u64 {
        let outside = Outside {
            write: 4,
            bad_write: k,
            bad_note: k % 2,
            ..calm()
        };
        let answer = call(rt.alloc(), "run 1 10", INPUT, outside)?;
        assert!(rt;
            answer.status == 5 && answer.out.len() as u64 == 4 * (k - 1),
            "write {k}"
        );
        assert!(rt; whole.out.starts_with(&answer.out), "write {k}");
        assert_eq!(rt; answer.notes.is_empty(), k % 2 == 1);
    }
    Ok(())
}
