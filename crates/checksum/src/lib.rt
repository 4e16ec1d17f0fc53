// The log's sum.
#![tactic(auto)]

ghost use Rattle.std.specs.Prelude.{◌≡◌, ◌+◌, ◌*◌, ◌%◌, ◌^◌, length};
ghost use Rattle.checksum.specs.Sum.{sum_from, sum_of};

// k times x, modulo 2^32.
fn times(k: u32, x: u32) -> u32
    ensures { result ≡ k * x % 2 ^ 32 }
{
    (u64::from(k) * u64::from(x) % 4294967296) as u32
}

// The sum after one more byte.
fn step(s: u32, b: u8) -> u32
    ensures { result ≡ (31 * s + b) % 2 ^ 32 }
{
    times(31, s).wrapping_add(u32::from(b))
}

// What four bytes add to the sum.
fn group(a: u8, b: u8, c: u8, d: u8) -> u32
    ensures { result ≡ 29791 * a + 961 * b + 31 * c + d }
{
    29791 * u32::from(a) + 961 * u32::from(b) + 31 * u32::from(c) + u32::from(d)
}

// The sum after four more bytes: 923521, 29791 and 961 are 31^4, 31^3 and 31^2.
fn step4(s: u32, a: u8, b: u8, c: u8, d: u8) -> u32
    ensures { result ≡ (923521 * s + (29791 * a + 961 * b + 31 * c + d)) % 2 ^ 32 }
{
    times(923521, s).wrapping_add(group(a, b, c, d))
}

// The sum over some bytes: four in one step, the few left over singly.
fn by_fours(start: u32, bytes: &[u8]) -> u32
    ensures { result ≡ sum_from start bytes.now }
{
    let (groups, left) = bytes.as_chunks::<4>();
    let mut s = start;
    for group in groups {
        s = step4(s, group[0], group[1], group[2], group[3]);
    }
    for byte in left {
        s = step(s, *byte);
    }
    s
}

// The same, two steps of four in a turn: a turn for each step costs a fifth more.
fn sum_from(start: u32, bytes: &[u8]) -> u32
    ensures { result ≡ sum_from start bytes.now }
{
    let (pairs, left) = bytes.as_chunks::<8>();
    let mut s = start;
    for pair in pairs {
        let half = step4(s, pair[0], pair[1], pair[2], pair[3]);
        s = step4(half, pair[4], pair[5], pair[6], pair[7]);
    }
    by_fours(s, left)
}

// The sum of a log: bytes 20 to 23, where it stands, are passed over.
#[tactic(auto, using(crate::specs::SumLaws::sum_head, crate::specs::SumLaws::sum_short))]
pub fn sum(log: &[u8]) -> u32
    ensures { result ≡ sum_of log.now }
{
    if log.len() <= 20 {
        return sum_from(0, log);
    }
    let s = sum_from(0, &log[..20]);
    if log.len() <= 24 {
        return s;
    }
    sum_from(s, &log[24..])
}
