// The adapters over std's readers and writers: calls that a signal interrupts, short writes, faults.
use std::alloc::Global;
use std::io::{self, ErrorKind, Read, Write};
use std::test::Fail;
use surf_base::{Outbox, ReadAllError, StreamSink, StreamSource, read_all, write_all};

// A stream that a signal interrupts so often before each call that counts. It takes at most three
// bytes at a time, and gives none.
#[derive(Drop)]
struct Stuttering {
    interruptions: u32,
    left: u32,
    broken: bool,
    taken: Vec<u8>,
}

impl Stuttering {
    fn next(&mut self) -> io::Result<()> {
        if self.left > 0 {
            self.left -= 1;
            return Err(io::Error::from(ErrorKind::Interrupted));
        }
        self.left = self.interruptions;
        if self.broken {
            return Err(io::Error::from(ErrorKind::BrokenPipe));
        }
        Ok(())
    }
}

impl Read for Stuttering {
    fn read(&mut self, _buf: &mut [u8]) -> io::Result<usize> {
        self.next()?;
        Ok(0)
    }
}

impl Write for Stuttering {
    fn write(&mut self, buf: &[u8]) -> io::Result<usize> {
        self.next()?;
        let count = buf.len().min(3);
        self.taken.extend_from_slice(&buf[..count])?;
        Ok(count)
    }

    fn flush(&mut self) -> io::Result<()> {
        Ok(())
    }
}

fn interrupted(alloc: Global, interruptions: u32, broken: bool) -> Stuttering {
    Stuttering {
        interruptions,
        left: interruptions,
        broken,
        taken: Vec::new(alloc),
    }
}

fn drop_sink<W: Write + Drop>(_sink: StreamSink<W>) {}

// A call is tried 64 times in all.
const ROWS: [(u32, bool, bool); 4] = [
    (0, false, true),
    (63, false, true),
    (64, false, false),
    (0, true, false),
];

#[test]
fn interrupted_reads_are_tried_again(rt: HostRuntime) -> Result<(), Fail> {
    for (interruptions, broken, good) in ROWS {
        let reader = interrupted(rt.alloc(), interruptions, broken);
        let mut source = StreamSource::new(reader);
        match read_all(rt.alloc(), &mut source, 100) {
            Ok(bytes) => assert!(rt; good && bytes.is_empty()),
            Err(fault) => assert!(rt; !good && matches!(fault, ReadAllError::ReadFault)),
        }
    }
    Ok(())
}

// Each write takes three bytes at most, and all are written in the end.
#[test]
fn interrupted_writes_are_tried_again(rt: HostRuntime) -> Result<(), Fail> {
    for (interruptions, broken, good) in ROWS {
        let mut writer = interrupted(rt.alloc(), interruptions, broken);
        let mut sink = StreamSink::new(&mut writer);
        let answer = write_all(&mut sink, b"two words");
        drop_sink(sink);
        let taken = if good {
            b"two words".as_slice()
        } else {
            b"".as_slice()
        };
        assert!(rt; answer.is_ok() == good && writer.taken.as_slice() == taken);
    }
    Ok(())
}

#[test]
fn streams_are_read_and_written(rt: HostRuntime) -> Result<(), Fail> {
    let text: &[u8] = b"two words";
    let bytes = read_all(rt.alloc(), &mut StreamSource::new(text), 100)?;
    assert!(rt; bytes.as_slice() == text);
    let mut written = Vec::new(rt.alloc());
    let mut sink = StreamSink::new(&mut written);
    let mut outbox = Outbox::new();
    for text in [b"one ".as_slice(), b"two\n", &[b'x'; 8190]] {
        assert!(rt; outbox.put(&mut sink, text).is_ok());
    }
    assert!(rt; outbox.flush(&mut sink).is_ok());
    drop_sink(sink);
    assert!(rt; written.len() == 8198 && written.starts_with(b"one two\nxxx"));
    let mut room = [0u8; 2];
    assert!(rt; write_all(&mut StreamSink::new(room.as_mut_slice()), b"abc").is_err());
    Ok(())
}
