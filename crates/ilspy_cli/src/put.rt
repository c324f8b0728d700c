// Writing a whole text to a sink.

ghost use Rattle.std.specs.Prelude.{◌≡◌, ◌<◌, ◌≤◌, OnOk, OnErr, length, take, drop};
ghost use Rattle.ilspy_cli.specs.Outcome.{IsWritten, IsCutShort, sunk};

use dc_outside::{Failed, Sink};

/// The most bytes that are put at once.
const PIECE: usize = 4096;

/// Puts the text in pieces, and again what a put didn't take.
pub(crate) fn put_all<K: Sink>(out: &mut K, text: &[u8]) -> Result<(), Failed>
    ensures ok { OnOk result (IsWritten (sunk (K.written out.old) (K.written out.new) (K.faults out.old) (K.faults out.new)) text.now) }
    ensures failed { OnErr result (IsCutShort (sunk (K.written out.old) (K.written out.new) (K.faults out.old) (K.faults out.new)) text.now) }
{
    let mut done = 0;
    while done < text.len() {
        done += out.put(piece(text, done))?;
    }
    Ok(())
}

// The next piece of a text of which `done` bytes are written.
fn piece(text: &[u8], done: usize) -> &[u8]
    requires { done < length text.now }
    ensures some { 0 < length result.now }
    ensures short { length result.now ≤ 4096 }
    ensures next { result.now ≡ take (length result.now) (drop done text.now) }
{
    let end = text.len().min(done.saturating_add(PIECE));
    &text[done..end]
}

#[cfg(test)]
mod tests {
    use super::*;
    use dc_outside::MemSink;
    use std::test::Fail;

    // The second put fails, so what is written is the first piece.
    #[test]
    fn a_piece_has_4096_bytes_at_most(rt: HostRuntime) -> Result<(), Fail> {
        let alloc = rt.alloc();
        let text = [b'x'; 4097];
        let mut whole = MemSink::of(alloc, 8192, [2].to_vec(alloc)?);
        whole.reserve(8192)?;
        assert!(rt; put_all(&mut whole, &text[..4096]).is_ok());
        assert_eq!(rt; whole.written().len(), 4096);
        let mut front = MemSink::of(alloc, 8192, [2].to_vec(alloc)?);
        front.reserve(8192)?;
        assert!(rt; put_all(&mut front, &text).is_err());
        assert_eq!(rt; front.written().len(), 4096);
        Ok(())
    }
}
