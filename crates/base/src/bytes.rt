// Bytes: reads that are total, little-endian numbers, and runs of elements cleared or copied.
ghost use Rattle.std.specs.Prelude.{◌≡◌, ◌+◌, ◌*◌};
ghost use Rattle.base.specs.Bytes.{byte, le16, le32, bytes};
ghost use Rattle.base.specs.Lists.{filled, splice};

// The byte at i, or 0 past the end.
pub fn at(s: &[u8], i: usize) -> u8
    ensures { result ≡ byte s.now i }
{
    if i < s.len() {
        return s[i];
    }
    0
}

// The number of two bytes, the lowest first.
fn pair(low: u8, high: u8) -> u16
    ensures { result ≡ low + 256 * high }
{
    u16::from(low) + 256 * u16::from(high)
}

// The number in the two bytes from i on, 0 for a byte past the end; each byte is tested.
fn edge16(s: &[u8], i: usize) -> u16
    ensures { result ≡ le16 s.now i }
{
    if s.len() <= i {
        return 0;
    }
    pair(at(s, i), at(s, i + 1))
}

// The same with one test where both bytes are there.
pub fn at16(s: &[u8], i: usize) -> u16
    ensures { result ≡ le16 s.now i }
{
    if s.len() < 2 || s.len() - 2 < i {
        return edge16(s, i);
    }
    pair(s[i], s[i + 1])
}

// The number in the four bytes from i on, 0 for a byte past the end.
fn edge32(s: &[u8], i: usize) -> u32
    ensures { result ≡ le32 s.now i }
{
    if s.len() <= i {
        return 0;
    }
    u32::from(at16(s, i)) + 65536 * u32::from(at16(s, i + 2))
}

// The same with one test where all four are there.
pub fn at32(s: &[u8], i: usize) -> u32
    ensures { result ≡ le32 s.now i }
{
    if s.len() < 4 || s.len() - 4 < i {
        return edge32(s, i);
    }
    let k = i + 2;
    u32::from(pair(s[i], s[i + 1])) + 65536 * u32::from(pair(s[k], s[k + 1]))
}

// The two bytes of a number, the lowest first.
pub fn le_bytes16(x: u16) -> [u8; 2]
    ensures { result ≡ bytes 2 x }
{
    u16::to_le_bytes(x)
}

// The four bytes of a number, the lowest first.
pub fn le_bytes32(x: u32) -> [u8; 4]
    ensures { result ≡ bytes 4 x }
{
    u32::to_le_bytes(x)
}

// A number, of which each type has a zero.
pub trait Zero: Copy {
    ghost ZERO: { Self };

    const ZERO: Self;
}

impl Zero for u8 {
    ghost ZERO = { 0 };

    const ZERO: u8 = 0;
}

impl Zero for u16 {
    ghost ZERO = { 0 };

    const ZERO: u16 = 0;
}

impl Zero for u32 {
    ghost ZERO = { 0 };

    const ZERO: u32 = 0;
}

impl Zero for u64 {
    ghost ZERO = { 0 };

    const ZERO: u64 = 0;
}

// Zeros from a place to the end.
pub fn clear<T: Zero>(out: &mut [T], from: usize)
    ensures { out.new ≡ filled T.ZERO from out.old }
{
    for i in from..out.len() {
        out[i] = T::ZERO;
    }
}

// The bytes of one slice put over another from a place on; nothing is changed where they do not fit.
pub fn copy(out: &mut [u8], at: usize, from: &[u8])
    ensures { out.new ≡ splice at from.now out.old }
{
    if from.len() <= out.len() && at <= out.len() - from.len() {
        out[at..at + from.len()].copy_from_slice(from);
    }
}
