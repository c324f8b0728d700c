// A sink that keeps nothing.

ghost use Rattle.std.specs.Prelude.{◌≡◌, ◌++◌, ◌-◌, ◌^◌, ◌<◌, [], length, min};

use crate::{Failed, Sink, SinkLog};
use std::marker::Model;

/// Counts the bytes that it is given, up to 2^64 - 1, and never fails. Contracts see it as all bytes that it was given.
#[derive(Debug, Drop)]
pub struct FreeSink {
    taken: u64,
    log: SinkLog,
}

impl Model for FreeSink {
    ghost use Rattle.std.specs.Prelude.{◌≡◌, ◌-◌, ◌^◌, ℕ, List, length, min};

    ghost Value = { List ℕ };

    ghost view = { λ s. s.log.taken };

    ghost invariant = { λ s. s.taken ≡ min (length s.log.taken) (2 ^ 64 - 1) };
}

impl FreeSink {
    pub fn of() -> FreeSink
        ensures { result ≡ [] }
    {
        FreeSink {
            taken: 0,
            log: SinkLog::new(),
        }
    }

    /// In bytes.
    pub fn taken(&self) -> u64
        ensures { result ≡ min (length self.now) (2 ^ 64 - 1) }
    {
        self.taken
    }
}

impl Sink for FreeSink {
    ghost written = { λ s. s };

    ghost faults = { λ _. 0 };

    fn put(&mut self, piece: &[u8]) -> Result<usize, Failed>
        requires { 0 < length piece.now }
        // It takes the whole piece.
        ensures whole { result ≡ Ok (length piece.now) }
        ensures taken { self.new ≡ self.old ++ piece.now }
    {
        self.taken = self.taken.saturating_add(piece.len() as u64);
        self.log = self.log.and(piece);
        Ok(piece.len())
    }
}

#[cfg(test)]
mod tests {
    use super::*;

    #[test]
    fn counts_bytes(rt: HostRuntime) {
        let mut sink = FreeSink::of();
        assert!(rt; sink.put(b"abc").is_ok());
        assert!(rt; sink.put(b"d").is_ok());
        assert_eq!(rt; sink.taken(), 4);
    }
}
