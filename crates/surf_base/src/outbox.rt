// Many short texts to a sink, sent in long pieces.
ghost use Rattle.std.specs.Prelude.{◌≡◌, [], ◌++◌, ◌+◌, ◌≤◌, length, OnOk, OnErr};
ghost use Rattle.surf_base.specs.Emits.{Emits, outlet};

use crate::{Sink, WriteFault, write_all};
use std::marker::Model;

const ROOM: usize = 8192;

/// Bytes on their way to a sink. They are held until there are many, and `flush` sends the rest.
/// Takes no memory.
#[derive(Drop)]
pub struct Outbox {
    bytes: [u8; ROOM],
    len: usize,
}

impl Model for Outbox {
    ghost use Rattle.std.specs.Prelude.{◌≤◌, List, ℕ, take};

    ghost Value = { List ℕ };

    ghost view = { λ o. take o.len o.bytes };

    ghost invariant = { λ o. o.len ≤ 8192 };
}

impl Outbox {
    /// An outbox that holds nothing.
    pub fn new() -> Outbox
        ensures { result ≡ [] }
    {
        Outbox {
            bytes: [0; ROOM],
            len: 0,
        }
    }

    /// Sends what is held. After a fault a front of it was sent.
    pub fn flush<K: Sink>(&mut self, sink: &mut K) -> Result<(), WriteFault>
        ensures emits { Emits (outlet (K.written sink.old) self.old (K.faults sink.old))
            (outlet (K.written sink.new) self.new (K.faults sink.new)) [] result }
        ensures empty { OnOk result (self.new ≡ []) }
    {
        write_all(sink, &self.bytes[..self.len])?;
        self.len = 0;
        Ok(())
    }

    // Takes a text that fits.
    fn hold(&mut self, text: &[u8])
        requires { length self.old + length text.now ≤ 8192 }
        ensures { self.new ≡ self.old ++ text.now }
    {
        let end = self.len + text.len();
        self.bytes[self.len..end].copy_from_slice(text);
        self.len = end;
    }

    /// Takes a text, and sends what is held before it where it doesn't fit.
    pub fn put<K: Sink>(&mut self, sink: &mut K, text: &[u8]) -> Result<(), WriteFault>
        ensures { Emits (outlet (K.written sink.old) self.old (K.faults sink.old))
            (outlet (K.written sink.new) self.new (K.faults sink.new)) text.now result }
    {
        if text.len() <= ROOM - self.len {
            self.hold(text);
            return Ok(());
        }
        self.flush(sink)?;
        self.put_large(sink, text)
    }

    // Takes a text where nothing is held.
    fn put_large<K: Sink>(&mut self, sink: &mut K, text: &[u8]) -> Result<(), WriteFault>
        requires { self.old ≡ [] }
        ensures { Emits (outlet (K.written sink.old) self.old (K.faults sink.old))
            (outlet (K.written sink.new) self.new (K.faults sink.new)) text.now result }
    {
        if text.len() <= ROOM {
            self.hold(text);
            return Ok(());
        }
        write_all(sink, text)
    }
}
