// Reading the front of a file.

ghost use Rattle.std.specs.Prelude.{◌≡◌, ◌≢◌, ◌≤◌, ◌<◌, ◌+◌, ◌-◌, length, min, take, IfErr, IfOk, OnErr};
ghost use Rattle.std.specs.IoError.{error_kind};
ghost use Rattle.std.specs.Io.{ReadsAtMost};
ghost use Rattle.std.specs.Io.KnownBytes.{Consumes, IsAtEnd, Keeps};
ghost use Rattle.ilspy_outside.specs.System.{LosesAtMost, ReadsMore};

use std::alloc::Global;
use std::io::{self, ErrorKind, Read};

/// How many bytes are asked of a file at once.
const CHUNK: usize = 65_536;

/// The file's bytes, and at most one more than the limit. A read that was interrupted is made again. An error hands none of
/// them on.
pub(crate) fn read_front<F: Read>(file: &mut F, alloc: Global, limit: u64) -> io::Result<Vec<u8>>
    // All that the file lost is handed on, and that is at most one byte more than the limit.
    ensures short { LosesAtMost (F.remaining file.old) (F.remaining file.new) (limit + 1) }
    ensures whole { IfOk result (λ front. Consumes (F.remaining file.old) (F.remaining file.new) front.items) }
    ensures within { IfOk result (λ front. length front.items ≤ limit + 1) }

    // A front that isn't longer than the limit is the whole file.
    ensures end { IfOk result (λ front. length front.items ≤ limit → IsAtEnd (F.remaining file.new)) }

    // No error says that it was interrupted.
    ensures retried { IfErr result (λ e. error_kind e ≢ ErrorKind.Interrupted) }
{
    let mut front = Vec::new(alloc);
    let mut chunk = [0u8; CHUNK];
    while front.len() as u64 <= limit {
        let wanted = wanted(front.len(), limit);
        if !read_more(file, &mut chunk[..wanted], &mut front)? {
            break;
        }
    }
    Ok(front)
}

// How many bytes to ask for, where `len` are read: no more than one past the limit, and than there is room for.
fn wanted(len: usize, limit: u64) -> usize
    requires { len ≤ limit }
    ensures { result ≡ min (limit + 1 - len) 65536 }
{
    let left = (limit - len as u64).saturating_add(1);
    left.min(CHUNK as u64) as usize
}

// Appends what one read gives, and answers whether it gave any.
fn read_more<F: Read>(file: &mut F, room: &mut [u8], front: &mut Vec<u8>) -> io::Result<bool>
    requires { 0 < length room.now }
    ensures more { ReadsMore (F.remaining file.old) (F.remaining file.new) (length room.old) front.old.items front.new.items result }
    ensures retried { IfErr result (λ e. error_kind e ≢ ErrorKind.Interrupted) }
{
    let n = read_retrying(file, room)?;
    if n == 0 {
        return Ok(false);
    }
    front.extend_from_slice(&room[..n])?;
    Ok(true)
}

// One read, which is made again where it was interrupted.
fn read_retrying<F: Read>(file: &mut F, room: &mut [u8]) -> io::Result<usize>
    ensures bound { ReadsAtMost result room.new }
    ensures ok { IfOk result (λ n. Consumes (F.remaining file.old) (F.remaining file.new) (take n room.new)) }
    ensures end { IfOk result (λ n. n ≡ 0 → 0 < length room.old → IsAtEnd (F.remaining file.new)) }
    ensures err { OnErr result (Keeps (F.remaining file.old) (F.remaining file.new)) }
    ensures retried { IfErr result (λ e. error_kind e ≢ ErrorKind.Interrupted) }
{
    for _ in 0..u64::MAX {
        match file.read(room) {
            Ok(n) => return Ok(n),
            Err(e) if e.kind() == ErrorKind::Interrupted => {}
            Err(e) => return Err(e),
        }
    }
    Err(io::Error::from(ErrorKind::TimedOut))
}
