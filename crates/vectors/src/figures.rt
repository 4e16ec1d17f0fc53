// Document 002's running example, times ten: 01's week B.
use crate::brute::cheapest;
use crate::run::{ABSENT, checked_rows, class_prices, header, planned, written};
use crate::small::Small;
use planner::least;
use prices::Prices;
use std::io;
use std::io::Print;

const WEEK: Small = Small {
    seconds: [0, 5, 8, 11, 14, 26, 32, 40],
    servers: [0, 1, 2, 3, 0, 1, 1, 2],
};

// 002's marginal bound of request i: its span's cost, or the transfer price where that is less.
fn bound(prices: Prices, i: usize) -> u64 {
    let transfer = u64::from(prices.transfer);
    match WEEK.previous(i) {
        Some(j) => WEEK.held(prices, j, i).min(transfer),
        None => transfer,
    }
}

// The running bound of the requests after request i, up to request 6.
fn bounds_after(prices: Prices, i: usize) -> u64 {
    let mut sum: u64 = 0;
    for j in 1..7 {
        if i < j {
            sum = sum.wrapping_add(bound(prices, j));
        }
    }
    sum
}

// 002's candidate for D(7): the cost of the first i requests, the span of request 7 and the bounds of those between.
fn candidate(prices: Prices, costs: &[u64; 8], i: usize) -> u64 {
    if 8 <= i {
        return ABSENT;
    }
    let span = WEEK.held(prices, WEEK.previous(7).unwrap_or(0), 7);
    costs[i]
        .wrapping_add(span)
        .wrapping_add(bounds_after(prices, i))
}

// D(i): the least cost of the first i requests with the last of them kept.
fn kept_cost(i: usize, bit: u32) -> u64 {
    cheapest(class_prices(0), &WEEK, i, bit).cost
}

fn show_costs(rt: &impl Print, log: &[u8; 82]) -> io::Result<()> {
    let mut costs = [7u64; 8];
    let _ = least(log, &mut costs);
    print!(rt; "C")?;
    for i in 1..8 {
        print!(rt; " {}", costs[i])?;
    }
    println!(rt;)?;
    println!(rt; "D(4) {}", kept_cost(4, 8))?;
    println!(rt; "D(7) {}", kept_cost(7, 64))?;
    print!(rt; "D(7) from C(2) C(4) C(5) C(6)")?;
    for i in [2, 4, 5, 6] {
        print!(rt; " {}", candidate(class_prices(0), &costs, i))?;
    }
    println!(rt;)
}

fn show_plan(rt: &impl Print, log: &[u8; 82]) -> io::Result<()> {
    let mut marks = [7u8; 7];
    let mut rows = [7u32; 64];
    let plan = planned(log, &mut marks, &mut rows);
    print!(rt; "marks ")?;
    rt.write_all(&marks)?;
    print!(rt; "\nrows")?;
    for x in rows.iter().take(4 * plan.rows as usize) {
        print!(rt; " {x}")?;
    }
    let checked = checked_rows(log, &rows, plan.rows);
    println!(rt; "\ncost {} checked {checked}", plan.cost)
}

pub(crate) fn show(rt: &impl Print) -> io::Result<()> {
    let mut log = [0u8; 82];
    let week = WEEK;
    written(
        header(0, 4, 0),
        &week.seconds[1..],
        &week.servers[1..],
        &mut log,
    );
    println!(rt; "002 times ten")?;
    show_costs(rt, &log)?;
    show_plan(rt, &log)
}
