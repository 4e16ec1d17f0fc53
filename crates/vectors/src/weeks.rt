// Weeks of our own, up to a full one: the planner's least cost, the number of its rows, what the checker makes of them, and the running
// cost of the online cache.
use crate::run::{checked_rows, header, live, planned, written};
use request_log::Header;
use std::io;
use std::io::Print;

// The class, the servers, home, the requests, the seconds between two, and by how much servers go on; each fifth request one more.
const WEEKS: [(u8, u8, u8, usize, u32, u32); 18] = [
    (0, 3, 0, 40, 3, 1),
    (1, 3, 0, 40, 7, 1),
    (2, 3, 0, 40, 4, 1),
    (3, 3, 0, 40, 3, 1),
    (4, 3, 0, 40, 9, 1),
    (5, 3, 0, 40, 35, 1),
    (6, 3, 0, 40, 1, 1),
    (7, 3, 0, 40, 90000, 1),
    (0, 1, 0, 40, 3, 1),
    (0, 64, 0, 640, 1, 7),
    (0, 64, 63, 640, 1, 7),
    (0, 5, 4, 40, 2, 3),
    (0, 2, 1, 0, 1, 1),
    (0, 2, 1, 1, 1, 1),
    (0, 1, 0, 2048, 1953, 1),
    (4, 8, 3, 2048, 5, 3),
    (5, 64, 17, 2048, 11, 5),
    (7, 64, 63, 2048, 1953, 29),
];

// The seconds of requests so far apart.
fn seconds_of(apart: u32) -> [u32; 2048] {
    let mut seconds = [0u32; 2048];
    let mut t: u32 = 0;
    for i in 0..2048 {
        t = t.wrapping_add(apart);
        seconds[i] = t;
    }
    seconds
}

// Their servers, which go on by so much, and by one more at each fifth.
fn servers_of(count: u8, by: u32) -> [u16; 2048] {
    let mut servers = [0u16; 2048];
    let mut y: u32 = 0;
    for i in 0..2048 {
        y = y.wrapping_add(by);
        if i % 5 == 4 {
            y = y.wrapping_add(1);
        }
        let server = y.checked_rem(u32::from(count)).unwrap_or(0);
        servers[i] = u16::try_from(server).unwrap_or(0);
    }
    servers
}

// A plan written over other numbers, and checked.
fn show_plan(rt: &impl Print, log: &[u8]) -> io::Result<()> {
    let mut marks = [7u8; 2048];
    let mut rows = [7u32; 16384];
    let plan = planned(log, &mut marks, &mut rows);
    let checked = checked_rows(log, &rows, plan.rows);
    print!(rt; " least {} rows {} checked {checked}", plan.cost, plan.rows)
}

fn show_requests(
    rt: &impl Print,
    header: Header,
    seconds: &[u32],
    servers: &[u16],
) -> io::Result<()> {
    let mut log = [0u8; 12328];
    let length = written(header, seconds, servers, &mut log);
    if let Some(bytes) = log.get(..length as usize) {
        show_plan(rt, bytes)?;
    }
    println!(rt; " live {}", live(header, seconds, servers))
}

// The week whose marks are SKS, where 002's table would keep the last request for a cost that no marks have.
fn show_sks(rt: &impl Print) -> io::Result<()> {
    let header = header(0, 2, 0);
    let seconds = [1u32, 12, 13];
    let servers = [1u16, 1, 0];
    let mut log = [0u8; 58];
    written(header, &seconds, &servers, &mut log);
    let mut marks = [7u8; 3];
    let mut rows = [7u32; 24];
    planned(&log, &mut marks, &mut rows);
    print!(rt; "1 at 1, 12 at 1, 13 at 0: marks ")?;
    rt.write_all(&marks)?;
    show_requests(rt, header, &seconds, &servers)
}

pub(crate) fn show(rt: &impl Print) -> io::Result<()> {
    for (class, count, home, n, apart, by) in WEEKS {
        let seconds = seconds_of(apart);
        let servers = servers_of(count, by);
        print!(rt; "class {class} servers {count} home {home} requests {n}:")?;
        if n <= 2048 {
            show_requests(rt, header(class, count, home), &seconds[..n], &servers[..n])?;
        }
    }
    show_sks(rt)
}
