// Small weeks, drawn from a fixed sequence of numbers.
use crate::small::Small;

// The next number of the sequence.
pub(crate) fn drawn(x: u32) -> u32 {
    (u64::from(x) * 48271 % 2147483647) as u32
}

// A number below m, from a drawn one.
fn below(x: u32, m: u32) -> u32 {
    (x / 7).checked_rem(m).unwrap_or(0)
}

// Home and seven requests at most `apart` seconds apart, over `count` servers.
pub(crate) fn draw(x: u32, apart: u32, count: u8) -> Small {
    let mut week = Small {
        seconds: [0; 8],
        servers: [0; 8],
    };
    let mut y = x;
    let mut t: u32 = 0;
    for i in 0..8 {
        week.servers[i] = u16::try_from(below(y, u32::from(count))).unwrap_or(0);
        week.seconds[i] = t;
        y = drawn(y);
        t = t.wrapping_add(below(y, apart).wrapping_add(1));
        y = drawn(y);
    }
    week
}
