// Numbers as signatures and heaps spell them.

ghost use Rattle.std.specs.Prelude.{◌≤◌, ◌<◌, ◌∷◌, IfSome, IfNone};
ghost use Rattle.dc_base.specs.Spelling.{BeginsWithNumber, BeginsWithNone, BeginsWithOne};

/// The number that the bytes begin with in its shortest spelling (ECMA-335 II.23.2), and how many bytes
/// spell it. None where they begin with the shortest spelling of no number. Takes no memory.
pub fn compressed(bytes: &[u8]) -> Option<(u32, usize)>
    ensures found { IfSome result (λ found. BeginsWithNumber bytes.now found.0 found.1) }
    ensures none { IfNone result (BeginsWithNone bytes.now) }
{
    let [first, behind @ ..] = bytes else {
        return None;
    };
    let first = *first;
    if first < 0x80 {
        Some((u32::from(first), 1))
    } else if first < 0xC0 {
        two(first, behind)
    } else {
        four(first, behind)
    }
}

// The number of a spelling in two bytes.
fn two(first: u8, behind: &[u8]) -> Option<(u32, usize)>
    requires low { 128 ≤ first }
    requires high { first < 192 }
    ensures found { IfSome result (λ found. BeginsWithNumber (first ∷ behind.now) found.0 found.1) }
    ensures none { IfNone result (BeginsWithNone (first ∷ behind.now)) }
{
    let [second, ..] = behind else {
        return None;
    };
    let n = u32::from(first - 0x80) * 0x100 + u32::from(*second);
    if n < 0x80 {
        return None;
    }
    Some((n, 2))
}

// The number of a spelling in four bytes.
fn four(first: u8, behind: &[u8]) -> Option<(u32, usize)>
    requires { 192 ≤ first }
    ensures found { IfSome result (λ found. BeginsWithNumber (first ∷ behind.now) found.0 found.1) }
    ensures none { IfNone result (BeginsWithNone (first ∷ behind.now)) }
{
    let [b, c, d, ..] = behind else {
        return None;
    };
    if 0xE0 <= first {
        return None;
    }
    let high = u32::from(first - 0xC0) * 0x100 + u32::from(*b);
    let low = u32::from(*c) * 0x100 + u32::from(*d);
    let n = high * 0x1_0000 + low;
    if n < 0x4000 {
        return None;
    }
    Some((n, 4))
}

/// Bytes begin with the spelling of one number at most.
pub fn one_number_begins()
    ensures { BeginsWithOne }
{}

#[cfg(test)]
mod tests {
    use super::*;

    #[test]
    fn reads_the_shortest_spelling_alone(rt: HostRuntime) {
        for (bytes, want) in [
            (&[0x7F][..], Some((127, 1))),
            (&[0x80, 0x80][..], Some((128, 2))),
            (&[0xBF, 0xFF][..], Some((16383, 2))),
            (&[0xC0, 0x00, 0x40, 0x00][..], Some((16384, 4))),
            (&[0xDF, 0xFF, 0xFF, 0xFF][..], Some((536_870_911, 4))),
            (&[0x80, 0x03][..], None),
            (&[0xC0, 0x00, 0x3F, 0xFF][..], None),
            (&[0x80][..], None),
            (&[0xE0][..], None),
        ] {
            assert!(rt; compressed(bytes) == want);
        }
        one_number_begins();
    }
}
