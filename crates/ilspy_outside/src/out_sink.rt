// A sink over a writer.

ghost use Rattle.std.specs.Prelude.{◌≡◌, ◌≤◌, [], length, take};
ghost use Rattle.std.specs.Io.KnownBytes.{Appends, WriteAppends};

use dc_outside::{Failed, Sink, SinkLog};
use std::io::{ErrorKind, Write};

/// A writer, as standard output.
#[derive(Drop)]
pub struct OutSink<W: Write> {
    writer: W,
    faults: u64,
    log: SinkLog,
}

impl<W: Write> OutSink<W> {
    /// No call has failed yet, and none has taken anything; nothing is written.
    pub fn of(writer: W) -> Self
        ensures writer { result.writer ≡ writer }
        ensures faults { ⟦<OutSink<W> as Sink>⟧.faults result ≡ 0 }
        ensures written { ⟦<OutSink<W> as Sink>⟧.written result ≡ [] }
    {
        OutSink {
            writer,
            faults: 0,
            log: SinkLog::new(),
        }
    }
}

impl<W: Write> Sink for OutSink<W> {
    ghost use Rattle.dc_outside.specs.Outside.{Puts, CountsPut};

    ghost written = { λ s. s.log.taken };

    ghost faults = { λ s. s.faults };

    fn put(&mut self, piece: &[u8]) -> Result<usize, Failed>
        ensures puts { Puts piece.now self.old.log.taken self.new.log.taken result }
        ensures counts { CountsPut self.old.faults self.new.faults result }
        ensures never_falls { self.old.faults ≤ self.new.faults }

        // What the writer holds grows by just what was taken, where it tells that.
        ensures contents { WriteAppends (W.contents self.old.writer) (W.contents self.new.writer) result piece.now }
    {
        let taken = write_front(&mut self.writer, piece);
        if taken == 0 {
            self.faults = self.faults.saturating_add(1);
            return Err(Failed);
        }
        self.log = self.log.and(&piece[..taken]);
        Ok(taken)
    }
}

// How many bytes of the piece were written before the writer failed or took none. A write that was interrupted is made
// again.
fn write_front<W: Write>(writer: &mut W, piece: &[u8]) -> usize
    ensures short { result ≤ length piece.now }
    ensures grows { Appends (W.contents writer.old) (W.contents writer.new) (take result piece.now) }
{
    let mut done = 0;
    for _ in 0..u64::MAX {
        if done >= piece.len() {
            break;
        }
        match writer.write(&piece[done..]) {
            Ok(0) => break,
            Ok(n) => done += n,
            Err(e) if e.kind() == ErrorKind::Interrupted => {}
            Err(_) => break,
        }
    }
    done
}

#[cfg(test)]
mod tests {
    use super::*;
    use std::alloc::Global;
    use std::io;
    use std::test::Fail;

    // A writer that is interrupted before each write, takes a byte at a time, and fails once it is full.
    #[derive(Drop)]
    struct Slow {
        bytes: Vec<u8>,
        room: usize,
        is_interrupted: bool,
    }

    impl Write for Slow {
        ghost use Rattle.std.specs.Prelude.{Some};

        ghost contents = { λ writer. Some writer.bytes.items };

        fn write(&mut self, buf: &[u8]) -> io::Result<usize> {
            self.is_interrupted = !self.is_interrupted;
            if self.is_interrupted {
                return Err(io::Error::from(ErrorKind::Interrupted));
            }
            if self.bytes.len() >= self.room {
                return Err(io::Error::from(ErrorKind::StorageFull));
            }
            match buf {
                [first, ..] => {
                    self.bytes.push(*first)?;
                    Ok(1)
                }
                [] => Ok(0),
            }
        }

        fn flush(&mut self) -> io::Result<()> {
            Ok(())
        }
    }

    fn sink_with_room(alloc: Global, room: usize) -> OutSink<Slow> {
        OutSink::of(Slow {
            bytes: Vec::new(alloc),
            room,
            is_interrupted: false,
        })
    }

    #[test]
    fn writes_what_a_slow_writer_takes(rt: HostRuntime) -> Result<(), Fail> {
        let mut sink = sink_with_room(rt.alloc(), 5);
        for (piece, want) in [("abc", 3), ("def", 2), ("f", 0)] {
            assert!(rt; !piece.is_empty());
            assert_eq!(rt; sink.put(piece.as_bytes()).unwrap_or(0), want);
        }
        assert_eq!(rt; sink.writer.bytes.as_slice(), b"abcde".as_slice());
        assert_eq!(rt; sink.faults, 1);
        Ok(())
    }
}
