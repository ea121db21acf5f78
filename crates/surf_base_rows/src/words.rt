// Words that are those of a command, and words that are not.
use std::test::Fail;
use surf_words::{Command, read_words};

#[test]
fn words_are_read(rt: HostRuntime) -> Result<(), Fail> {
    let words = vec![in rt.alloc();
        String::from_str(rt.alloc(), "eval")?,
        String::new(rt.alloc()),
    ]?;
    assert!(rt; matches!(read_words(&words), Ok(Command::Eval { bits: [] })));
    Ok(())
}
