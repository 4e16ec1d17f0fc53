// The library executed: figures of document 002, weeks of our own, and a brute-force planner over small weeks.
#![tactic(auto)]

mod brute;
mod draw;
mod figures;
mod run;
mod small;
mod trials;
mod weeks;

use std::io;

fn main(rt: HostRuntime) -> io::Result<()> {
    figures::show(&rt)?;
    weeks::show(&rt)?;
    trials::show(&rt)
}
