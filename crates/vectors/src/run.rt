// The library's calls, each with a number for its answer: ABSENT where it is refused. Logs and caches are those of programs: of class 7 too.
use checker::check;
use online::Cache;
use planner::{Planned, plan};
use prices::{Prices, Tariff, built_in, of_class};
use request_log::Header;
use writer::write_with;

pub(crate) const ABSENT: u64 = u64::MAX;

// The prices of a class of the built-in table.
pub(crate) fn class_prices(class: u8) -> Prices {
    of_class(&built_in(), class)
}

// What a log and a cache of these are given.
pub(crate) fn header(class: u8, server_count: u8, home: u8) -> Header {
    Header {
        class,
        server_count,
        home,
        id: *b"felzoumig vector",
    }
}

// The length of the log that is written.
pub(crate) fn written(header: Header, seconds: &[u32], servers: &[u16], log: &mut [u8]) -> u64 {
    write_with(&built_in(), header, seconds, servers, log).unwrap_or(ABSENT)
}

// A plan, of no rows where it is refused.
pub(crate) fn planned(log: &[u8], marks: &mut [u8], rows: &mut [u32]) -> Planned {
    plan(log, marks, rows).unwrap_or(Planned {
        cost: ABSENT,
        rows: 0,
    })
}

// The checker's cost of the first n rows of a list.
pub(crate) fn checked_rows(log: &[u8], rows: &[u32], n: u32) -> u64 {
    match rows.get(..4 * n as usize) {
        Some(front) => check(log, front).unwrap_or(ABSENT),
        None => ABSENT,
    }
}

// The running cost after all requests.
pub(crate) fn live(header: Header, seconds: &[u32], servers: &[u16]) -> u64 {
    let mut cache = Cache::start_for_log(Tariff::built_in(), header).cache;
    for (second, server) in seconds.iter().zip(servers) {
        cache = cache.scan(header.id, *second, *server).cache;
    }
    cache.running().unwrap_or(ABSENT)
}
