// How long each server holds the file on each day.
ghost use Rattle.std.specs.Prelude.{[], ◌≡◌, ◌+◌, ◌*◌, ◌≤◌, ◌<◌, get_or, length, set};
ghost use Rattle.base.specs.Lists.{build};
ghost use Rattle.week.specs.Days.{day_seconds, week_days, week_seconds};
ghost use Rattle.week.specs.DayLaws.{in_day};
ghost use Rattle.week.specs.Figures.{Placed, days_upto, part_end, sums_of, figure_most, WithinDays, Daily};

use crate::{DAY, DAYS, SERVERS};

// The end of a hold, or of the day that a second is in, whichever comes first.
#[tactic(auto, unfolding(crate::specs::Figures::part_end))]
fn part_end(at: u32, to: u32) -> u32
    requires { (at < to) × (to ≤ week_seconds) }
    ensures { result ≡ part_end at to }
{
    let midnight = DAY * (at / DAY + 1);
    to.min(midnight)
}

// A hold added to its server's days, split at each midnight.
#[tactic(auto, using(crate::specs::FigureLaws::part_within))]
fn add_hold(table: &mut [[u32; DAYS]; SERVERS], server: usize, from: u32, to: u32)
    requires { (server < 64) × (length table.old ≡ 64) × (from ≤ to) × (to ≤ week_seconds) × (length (get_or table.old server []) ≡ week_days) × WithinDays (get_or table.old server []) figure_most }
    ensures { table.new ≡ set table.old server (build week_days (λ d. get_or (get_or table.old server []) d 0 + in_day from to d)) }
{
    let mut at = from;
    while at < to {
        let end = part_end(at, to);
        let d = (at / DAY) as usize;
        table[server][d] += end - at;
        at = end;
    }
}

// The seconds that the first n rows of a list hold at each server on each day.
#[tactic(auto, using(crate::specs::FigureLaws::figures_none))]
pub(crate) fn figures(rows: &[u32], n: usize) -> [[u32; DAYS]; SERVERS]
    requires { (4 * n ≤ length rows.now) × (n ≤ 4096) × Placed rows.now n }
    ensures { result ≡ build 64 (days_upto rows.now n) }
{
    let mut table = [[0u32; DAYS]; SERVERS];
    for i in 0..n {
        let k = 4 * i;
        if rows[k] == 0 {
            let server = rows[k + 1] as usize;
            add_hold(&mut table, server, rows[k + 2], rows[k + 3]);
        }
    }
    table
}

// Sums with one more server's days.
#[tactic(auto, using(base::specs::LentLaws::filling_begins))]
fn add_days(sums: [u32; DAYS], days: [u32; DAYS]) -> [u32; DAYS]
    requires { WithinDays sums figure_most × WithinDays days day_seconds }
    ensures { result ≡ build week_days (λ d. get_or sums d 0 + get_or days d 0) }
{
    let mut more = [0u32; DAYS];
    for d in 0..DAYS {
        more[d] = sums[d] + days[d];
    }
    more
}

// The sums of each day over the first servers.
#[tactic(auto, using(crate::specs::FigureLaws::sums_none, crate::specs::FigureLaws::sums_most))]
pub(crate) fn sum_days(table: [[u32; DAYS]; SERVERS], count: usize) -> [u32; DAYS]
    requires { (count ≤ 64) × Daily table }
    ensures { result ≡ sums_of table count }
{
    let mut sums = [0u32; DAYS];
    for y in 0..count {
        let more = add_days(sums, table[y]);
        sums = more;
    }
    sums
}
