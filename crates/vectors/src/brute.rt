// The plan by brute force, from 01's words alone: every list of marks is priced, and the first of the cheapest is taken. A list of marks
// is a number, in which request i has bit i - 1, set for K; so the latest request weighs most, and the highest number is looked at first.
use crate::small::Small;
use prices::Prices;

// Rows one after the other, and zeros after them.
#[derive(Clone, Copy)]
struct Rows {
    numbers: [u32; 64],
    end: usize,
}

impl Rows {
    // One row more, where there is room.
    fn with(self, row: [u32; 4]) -> Rows {
        let mut next = self;
        let at = self.end;
        if at <= 60 {
            next.numbers[at..at + 4].copy_from_slice(&row);
            next.end = at + 4;
        }
        next
    }
}

// The place that ends gap k: request k + 1.
fn after(k: usize) -> usize {
    k.saturating_add(1)
}

// A list of marks for the first n requests of a week. Gap k is between place k and the next.
#[derive(Clone, Copy)]
pub(crate) struct Marked<'a> {
    pub(crate) week: &'a Small,
    pub(crate) n: usize,
    pub(crate) marks: u32,
}

impl<'a> Marked<'a> {
    // Request k + 1 is K.
    pub(crate) fn kept(self, k: usize) -> bool {
        k < 8 && (self.marks >> k) % 2 == 1
    }

    // The mark of request k + 1 is allowed.
    fn allowed(self, k: usize) -> bool {
        if self.kept(k) {
            return self.week.previous(after(k)).is_some();
        }
        self.week.server(after(k)) != self.week.server(k)
    }

    fn legal(self) -> bool {
        (0..self.n).all(|k| self.allowed(k))
    }

    // Request i + 1 is K, and its copy stands over gap k.
    fn spans(self, i: usize, k: usize) -> bool {
        k <= i && self.kept(i) && self.week.previous(after(i)).is_some_and(|j| j <= k)
    }

    // Some kept copy stands over that gap.
    fn covered(self, k: usize) -> bool {
        (0..self.n).any(|i| self.spans(i, k))
    }

    // Server y holds over that gap.
    fn holds(self, y: u16, k: usize) -> bool {
        (0..self.n).any(|i| self.week.server(after(i)) == y && self.spans(i, k))
            || self.week.server(k) == y && !self.covered(k)
    }

    // What the mark of request k + 1 costs by itself.
    fn own(self, prices: Prices, k: usize) -> u64 {
        if !self.kept(k) {
            return u64::from(prices.transfer);
        }
        let previous = self.week.previous(after(k)).unwrap_or(0);
        self.week.held(prices, previous, after(k))
    }

    // And what the gap before it costs where nothing is kept over it.
    fn alone(self, prices: Prices, k: usize) -> u64 {
        if self.covered(k) {
            return 0;
        }
        self.week.held(prices, k, after(k))
    }

    fn cost(self, prices: Prices) -> u64 {
        let mut sum: u64 = 0;
        for k in 0..self.n {
            sum = sum.wrapping_add(self.own(prices, k));
            sum = sum.wrapping_add(self.alone(prices, k));
        }
        sum
    }

    fn begins(self, y: u16, k: usize) -> bool {
        self.holds(y, k) && (k == 0 || !self.holds(y, k - 1))
    }

    // The place that ends the hold of server y over gap k.
    fn end(self, y: u16, k: usize) -> usize {
        (k..self.n).find(|i| !self.holds(y, *i)).unwrap_or(self.n)
    }

    // Of four servers the one that holds over gap k and is nearest to the next request's own, the lower of two; 4 is none.
    fn source(self, k: usize) -> u16 {
        let target = self.week.server(after(k));
        (0..4u16)
            .filter(|y| self.holds(*y, k))
            .min_by_key(|y| y.abs_diff(target))
            .unwrap_or(4)
    }

    // The holds of server y.
    fn with_holds(self, rows: Rows, y: u16) -> Rows {
        let mut next = rows;
        for k in 0..self.n {
            if self.begins(y, k) {
                let from = self.week.second(k);
                let to = self.week.second(self.end(y, k));
                next = next.with([0, u32::from(y), from, to]);
            }
        }
        next
    }

    fn with_transfers(self, rows: Rows) -> Rows {
        let mut next = rows;
        for k in 0..self.n {
            if !self.kept(k) {
                let from = u32::from(self.source(k));
                let to = u32::from(self.week.server(after(k)));
                next = next.with([1, from, to, self.week.second(after(k))]);
            }
        }
        next
    }

    // The rows over at most four servers, and zeros after them.
    pub(crate) fn rows(self) -> [u32; 64] {
        let mut rows = Rows {
            numbers: [0; 64],
            end: 0,
        };
        for y in 0..4u16 {
            rows = self.with_holds(rows, y);
        }
        self.with_transfers(rows).numbers
    }

    // A letter for each request, and zeros after them.
    pub(crate) fn letters(self) -> [u8; 8] {
        let mut letters = [0u8; 8];
        for k in 0..self.n.min(8) {
            letters[k] = if self.kept(k) { b'K' } else { b'S' };
        }
        letters
    }
}

// A list of marks and its cost.
#[derive(Clone, Copy)]
pub(crate) struct Priced {
    pub(crate) marks: u32,
    pub(crate) cost: u64,
}

// The first of the cheapest among the legal marks of n requests that have all bits of `must`.
pub(crate) fn cheapest(prices: Prices, week: &Small, n: usize, must: u32) -> Priced {
    let mut best = Priced {
        marks: 0,
        cost: u64::MAX,
    };
    for marks in (0..128u32).rev() {
        let list = Marked { week, n, marks };
        if marks & must == must && list.legal() {
            let cost = list.cost(prices);
            if cost < best.cost {
                best = Priced { marks, cost };
            }
        }
    }
    best
}
