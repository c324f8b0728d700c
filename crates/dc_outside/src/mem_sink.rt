// A sink in memory.

ghost use Rattle.std.specs.Prelude.{◌≡◌, ◌<◌, ◌≤◌, [], max, length, OnErr, OnOk};
ghost use Rattle.dc_outside.specs.Outside.{Puts, CountsPut};
ghost use Rattle.dc_outside.specs.MemSink.{PutsInMemory, after_put};

use crate::script::Script;
use crate::{Failed, Sink};
use dc_base::NoMemory;
use std::alloc::Global;
use std::marker::Model;

/// Keeps the bytes that it takes. A call fails where its number, counted from 1, is listed or no room is
/// left. Contracts see it as a `SinkState` of its specs.
#[derive(Debug, Drop)]
pub struct MemSink {
    bytes: Vec<u8>,
    chunk: u32,
    script: Script,
    room: usize,
    faults: u64,
}

impl Model for MemSink {
    ghost use Rattle.std.specs.Prelude.{◌≤◌, length};
    ghost use Rattle.std.specs.Vec.{vec_capacity};
    ghost use Rattle.dc_outside.specs.MemSink.{SinkState};

    ghost Value = { SinkState };

    ghost view = { λ s. record {
      written = s.bytes.items;
      chunk = s.chunk;
      fails = s.script.fails.items;
      room = s.room;
      calls = s.script.calls;
      faults = s.faults;
    } };

    ghost invariant = { λ s. (1 ≤ s.chunk) × (length s.bytes.items ≤ s.room) × (s.room ≤ vec_capacity s.bytes) };
}

impl MemSink {
    /// A sink without room, for which `reserve` gets the memory. A call takes at most `chunk` bytes, and
    /// `fails` are the numbers of the calls that fail. Takes no memory.
    pub fn of(alloc: Global, chunk: u32, fails: Vec<u32>) -> MemSink
        requires { 1 ≤ chunk }
        ensures { result ≡ record {
          written = [];
          chunk = chunk;
          fails = fails.items;
          room = 0;
          calls = 0;
          faults = 0;
        } }
    {
        MemSink {
            bytes: Vec::new(alloc),
            chunk,
            script: Script::of(fails),
            room: 0,
            faults: 0,
        }
    }

    /// Gives it room for `n` bytes in all, those written among them; a sink that has more keeps it.
    pub fn reserve(&mut self, n: u64) -> Result<(), NoMemory>
        ensures ok { OnOk result (self.new ≡ record self.old { room = max self.old.room n }) }
        ensures err { OnErr result (self.new ≡ self.old) }
    {
        let wanted = n as usize;
        if self.room < wanted {
            self.bytes.reserve(wanted - self.bytes.len())?;
            self.room = wanted;
        }
        Ok(())
    }

    /// All bytes that it took, in order.
    pub fn written(&self) -> &[u8]
        ensures { result.now ≡ self.now.written }
    {
        self.bytes.as_slice()
    }
}

impl Sink for MemSink {
    ghost written = { λ s. s.written };

    ghost faults = { λ s. s.faults };

    fn put(&mut self, piece: &[u8]) -> Result<usize, Failed>
        requires { 0 < length piece.now }
        ensures puts { Puts piece.now self.old.written self.new.written result }
        ensures counts { CountsPut self.old.faults self.new.faults result }
        ensures never_falls { self.old.faults ≤ self.new.faults }

        // Which calls fail, how much the others take, and all that changes.
        ensures exact { PutsInMemory self.old piece.now result }
        ensures state { self.new ≡ after_put self.old piece.now result }
    {
        let listed = self.script.next_fails();
        let left = self.room - self.bytes.len();
        if listed || left == 0 {
            self.faults = self.faults.saturating_add(1);
            return Err(Failed);
        }
        let n = (self.chunk as usize).min(piece.len().min(left));
        self.bytes.extend_from_slice(&piece[..n]).unwrap();
        Ok(n)
    }
}

#[cfg(test)]
mod tests {
    use super::*;
    use std::test::Fail;

    #[test]
    fn takes_chunks_and_fails_as_listed(rt: HostRuntime) -> Result<(), Fail> {
        let alloc = rt.alloc();
        let mut sink = MemSink::of(alloc, 3, Vec::from_slice(alloc, &[2])?);
        for (room, piece, want) in [
            (0, "x", "Err(Failed)"),
            (5, "x", "Err(Failed)"),
            (0, "abcd", "Ok(3)"),
            (5, "d", "Ok(1)"),
            (1, "ef", "Ok(1)"),
            (5, "f", "Err(Failed)"),
        ] {
            sink.reserve(room)?;
            assert!(rt; !piece.is_empty());
            let answer = sink.put(piece.as_bytes());
            assert_eq!(rt;
                format!(in alloc; "{answer:?}")?.as_str(),
                want,
                "at {piece}"
            );
        }
        assert_eq!(rt; sink.written(), b"abcde".as_slice());
        Ok(())
    }
}
