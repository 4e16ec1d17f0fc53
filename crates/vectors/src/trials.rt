// Small weeks, drawn one after the other: the library's plan of each beside the plan by brute force.
use crate::brute::{Marked, cheapest};
use crate::draw::{draw, drawn};
use crate::run::{checked_rows, class_prices, header, planned, written};
use crate::small::Small;
use planner::least;
use prices::window;
use std::io::Print;
use std::{fmt, io};

// In how many weeks the two agree.
#[derive(Clone, Copy)]
struct Tally {
    weeks: u64,
    costs: u64,
    marks: u64,
    rows: u64,
    prefixes: u64,
    checked: u64,
}

impl fmt::Display for Tally {
    fn fmt<W: fmt::Write>(&self, f: &mut fmt::Formatter<W>) -> fmt::Result {
        write!(
            f,
            "{}: costs {} marks {}",
            self.weeks, self.costs, self.marks
        )?;
        write!(f, " rows {} prefixes {}", self.rows, self.prefixes)?;
        write!(f, " checked {}", self.checked)
    }
}

fn more(x: u64, agrees: bool) -> u64 {
    x.wrapping_add(u64::from(agrees))
}

// A week's class and its requests: the first n of a small week.
#[derive(Clone, Copy)]
struct Trial<'a> {
    class: u8,
    n: usize,
    week: &'a Small,
}

impl<'a> Trial<'a> {
    // The least cost of the first 0, 1, .., n requests by brute force, and zeros after them.
    fn least_costs(self) -> [u64; 9] {
        let prices = class_prices(self.class);
        let mut costs = [0u64; 9];
        for k in 0..9 {
            if k <= self.n {
                costs[k] = cheapest(prices, self.week, k, 0).cost;
            }
        }
        costs
    }

    // The least costs of a log, in a list that held other numbers.
    fn prefixes_agree(self, log: &[u8]) -> bool {
        let mut costs = [7u64; 9];
        let _ = least(log, &mut costs);
        costs == self.least_costs()
    }

    // The plan of a log, in lists that held other numbers.
    fn judge(self, t: Tally, log: &[u8]) -> Tally {
        let mut letters = [7u8; 8];
        let mut rows = [7u32; 64];
        let plan = planned(log, &mut letters, &mut rows);
        let best = cheapest(class_prices(self.class), self.week, self.n, 0);
        let list = Marked {
            week: self.week,
            n: self.n,
            marks: best.marks,
        };
        Tally {
            weeks: more(t.weeks, true),
            costs: more(t.costs, plan.cost == best.cost),
            marks: more(t.marks, letters == list.letters()),
            rows: more(t.rows, rows == list.rows()),
            prefixes: more(t.prefixes, self.prefixes_agree(log)),
            checked: more(t.checked, checked_rows(log, &rows, plan.rows) == plan.cost),
        }
    }

    // The log, over so many servers.
    fn judge_written(self, t: Tally, count: u8) -> Tally {
        let week = *self.week;
        let home = u8::try_from(week.servers[0]).unwrap_or(0);
        let n = self.n;
        let mut log = [0u8; 82];
        if 7 < n {
            return t;
        }
        let length = written(
            header(self.class, count, home),
            &week.seconds[1..n + 1],
            &week.servers[1..n + 1],
            &mut log,
        );
        match log.get(..length as usize) {
            Some(bytes) => self.judge(t, bytes),
            None => self.judge(t, &[]),
        }
    }
}

// Twice the window and a little more, so that both marks come up.
fn apart(class: u8) -> u32 {
    let w = window(class_prices(class));
    if 200000 < w {
        return 500000;
    }
    2 * w + 9
}

// Trial i, from a drawn number: 1 to 4 servers, 0 to 7 requests.
fn tried(t: Tally, x: u32, i: u32) -> Tally {
    let class = (x / 7 % 8) as u8;
    let count = (1 + i % 4) as u8;
    let week = draw(x, apart(class), count);
    let trial = Trial {
        class,
        n: (i / 4 % 8) as usize,
        week: &week,
    };
    trial.judge_written(t, count)
}

pub(crate) fn show(rt: &impl Print) -> io::Result<()> {
    let mut t = Tally {
        weeks: 0,
        costs: 0,
        marks: 0,
        rows: 0,
        prefixes: 0,
        checked: 0,
    };
    let mut x: u32 = 2026;
    for i in 0..4096u32 {
        x = drawn(x);
        t = tried(t, x, i);
    }
    println!(rt; "small weeks {t}")
}
