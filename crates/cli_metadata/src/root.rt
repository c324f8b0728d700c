// The root and its streams.

ghost use Rattle.std.specs.Prelude.{◌≡◌, ◌≤◌, ◌<◌, ◌+◌, ◌^◌, ℕ, length, IfOk, IfNone, OnOk, Ok, Some, IsOk, codes, ◌∷◌, []};
ghost use Rattle.std.specs.Option.{option_map};
ghost use Rattle.cli_metadata.specs.Reading.{Gives};
ghost use Rattle.cli_metadata.specs.Root.{name_at, root_of, header_at, headers_at, name_of, named, past_end, earlier, first_past_end, streams_in, streams_of, end_of, named_in, AreWithinAll};
ghost use Rattle.cli_metadata.specs.Standing.{padded, AreWithin};
ghost use Rattle.cli_metadata.specs.RootViews.{header_of, root_as};

use crate::reading::{behind, check, fault, front, rest, u16_at, u32_at, zero_in};
use crate::{MetaCause, MetaFault};

// A stream: the place of its header, where it begins and its size, in bytes from the root's first one.
#[derive(Clone, Copy, Debug)]
pub(crate) struct Stream {
    pub place: u32,
    pub from: u32,
    pub size: u32,
}

// The streams that are read: of each name the first.
#[derive(Clone, Copy, Debug)]
pub(crate) struct Streams {
    pub tables: Stream,
    pub strings: Option<Stream>,
    pub user_strings: Option<Stream>,
    pub blobs: Option<Stream>,
}

// The first stream of each name that is read, where there is one.
#[derive(Clone, Copy, Debug)]
struct Found {
    tables: Option<Stream>,
    strings: Option<Stream>,
    user_strings: Option<Stream>,
    guids: Option<Stream>,
    blobs: Option<Stream>,
}

// Where the stream headers begin, and how many there are.
#[derive(Clone, Copy, Debug)]
struct Root {
    at: usize,
    count: u16,
}

// A stream's header, and the place behind it.
#[derive(Clone, Copy, Debug)]
struct Header<'a> {
    stream: Stream,
    name: &'a [u8],
    next: usize,
}

const SIGNATURE: u32 = 0x424A_5342;

#[tactic(auto, unfolding(crate::specs::Root::root_of))]
fn root_at(bytes: &[u8]) -> Result<Root, MetaFault>
    requires { length bytes.now < 2 ^ 32 }
    ensures root { Gives root_as result (root_of bytes.now) }
    ensures within { IfOk result (λ r. r.at ≤ length bytes.now) }
{
    let signature = u32_at(bytes, 0, MetaCause::BadRoot)?;
    check(signature == SIGNATURE, 0, MetaCause::BadRoot)?;
    u16_at(bytes, 4, MetaCause::BadRoot)?;
    u16_at(bytes, 6, MetaCause::BadRoot)?;
    u32_at(bytes, 8, MetaCause::BadRoot)?;
    let size = u32_at(bytes, 12, MetaCause::BadRoot)?;
    let flags = behind(bytes, 16, size as usize, MetaCause::BadRoot)?;
    u16_at(bytes, flags, MetaCause::BadRoot)?;
    let count = u16_at(bytes, flags + 2, MetaCause::BadRoot)?;
    Ok(Root {
        at: flags + 4,
        count,
    })
}

// The name at a place, without its zero.
fn name_at(bytes: &[u8], at: usize) -> Result<&[u8], MetaFault>
    requires place { at ≤ length bytes.now }
    requires short { length bytes.now < 2 ^ 32 }
    ensures name { Gives (λ x. x.now) result (name_at bytes.now at) }
    ensures whole { IfOk result (λ x. at + padded (length x.now) ≤ length bytes.now) }
{
    match zero_in(front(rest(bytes, at), 33)) {
        Some(size) => name_of(bytes, at, size),
        None => Err(fault(MetaCause::BadRoot, at)),
    }
}

// The name of this size at a place.
fn name_of(bytes: &[u8], at: usize, size: usize) -> Result<&[u8], MetaFault>
    requires place { at < 2 ^ 32 }
    requires size { size < 33 }
    ensures name { Gives (λ x. x.now) result (name_of bytes.now at (Some size)) }
    ensures whole { IfOk result (λ x. at + padded (length x.now) ≤ length bytes.now) }
{
    behind(bytes, at, (size / 4 + 1) * 4, MetaCause::BadRoot)?;
    Ok(front(rest(bytes, at), size))
}

// The stream header at a place.
#[tactic(auto, unfolding(crate::specs::Root::header_at))]
fn header_at(bytes: &[u8], at: usize) -> Result<Header<'_>, MetaFault>
    requires place { at ≤ length bytes.now }
    requires short { length bytes.now < 2 ^ 32 }
    ensures header { Gives header_of result (header_at bytes.now at) }
    ensures whole { IfOk result (λ h. h.next ≤ length bytes.now) }
{
    let from = u32_at(bytes, at, MetaCause::BadRoot)?;
    let size = u32_at(bytes, at + 4, MetaCause::BadRoot)?;
    let name = name_at(bytes, at + 8)?;
    let stream = Stream {
        place: at as u32,
        from,
        size,
    };
    Ok(Header {
        stream,
        name,
        next: at + 8 + (name.len() / 4 + 1) * 4,
    })
}

// The place behind the last stream header.
fn headers_end(bytes: &[u8], root: Root) -> Result<usize, MetaFault>
    requires place { root.at ≤ length bytes.now }
    requires short { length bytes.now < 2 ^ 32 }
    ensures end { result ≡ end_of (headers_at root.count bytes.now root.at) }
    ensures within { IfOk result (λ end. end ≤ length bytes.now) }
{
    let mut at = root.at;
    for _ in 0..root.count {
        at = header_at(bytes, at)?.next;
    }
    Ok(at)
}

// The first stream of a name, where all headers stand.
fn find(bytes: &[u8], root: Root, name: &[u8]) -> Option<Stream>
    requires place { root.at ≤ length bytes.now }
    requires short { length bytes.now < 2 ^ 32 }
    requires stands { IsOk (headers_at root.count bytes.now root.at) }
    ensures { result ≡ named_in name.now (headers_at root.count bytes.now root.at) }
{
    let mut at = root.at;
    for _ in 0..root.count {
        let Ok(header) = header_at(bytes, at) else {
            return None;
        };
        if header.name == name {
            return Some(header.stream);
        }
        at = header.next;
    }
    None
}

// The place of the header of a stream that passes the end.
fn past_end(bytes: &[u8], stream: Option<Stream>) -> Option<u32>
    ensures { result ≡ past_end bytes.now stream }
{
    match stream {
        Some(s) if bytes.len() < s.from as usize + s.size as usize => Some(s.place),
        _ => None,
    }
}

fn earlier(a: Option<u32>, b: Option<u32>) -> Option<u32>
    ensures { result ≡ earlier a b }
{
    match (a, b) {
        (Some(a), Some(b)) => Some(a.min(b)),
        (Some(a), None) => Some(a),
        (None, b) => b,
    }
}

// The streams that were found, where none passes the end and there is one of tables.
fn streams_in(bytes: &[u8], end: usize, found: Found) -> Result<Streams, MetaFault>
    requires { end < 2 ^ 32 }
    ensures streams { result ≡ streams_in bytes.now end found }
    ensures within { IfOk result (AreWithin (length bytes.now)) }
{
    if let Some(place) = first_past_end(bytes, found) {
        return Err(fault(MetaCause::BadStream, place as usize));
    }
    let Some(tables) = found.tables else {
        return Err(fault(MetaCause::BadStream, end));
    };
    Ok(Streams {
        tables,
        strings: found.strings,
        user_strings: found.user_strings,
        blobs: found.blobs,
    })
}

// The first of the headers of these streams whose stream passes the end.
fn first_past_end(bytes: &[u8], found: Found) -> Option<u32>
    ensures first { result ≡ first_past_end bytes.now found }
    ensures none { IfNone result (AreWithinAll (length bytes.now) found) }
{
    let strings = earlier(
        past_end(bytes, found.tables),
        past_end(bytes, found.strings),
    );
    let blobs = earlier(past_end(bytes, found.guids), past_end(bytes, found.blobs));
    earlier(earlier(strings, past_end(bytes, found.user_strings)), blobs)
}

/// The streams of metadata.
#[tactic(auto, unfolding(crate::specs::Root::streams_of))]
pub(crate) fn streams_of(bytes: &[u8]) -> Result<Streams, MetaFault>
    requires { length bytes.now < 2 ^ 32 }
    ensures streams { result ≡ streams_of bytes.now }
    ensures within { IfOk result (AreWithin (length bytes.now)) }
{
    let root = root_at(bytes)?;
    let end = headers_end(bytes, root)?;
    let found = Found {
        tables: find(bytes, root, b"#~"),
        strings: find(bytes, root, b"#Strings"),
        user_strings: find(bytes, root, b"#US"),
        guids: find(bytes, root, b"#GUID"),
        blobs: find(bytes, root, b"#Blob"),
    };
    streams_in(bytes, end, found)
}
