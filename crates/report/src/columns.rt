// The live columns of the sheet: the online cache over the requests of a log.
ghost use Rattle.std.specs.Prelude.{◌≡◌, ◌++◌, ◌≤◌, length, drop};
ghost use Rattle.base.specs.Lent.{lent};
ghost use Rattle.base.specs.Lists.{build};
ghost use Rattle.live.specs.Live.{state_after, live_mark, live_cost};
ghost use Rattle.live.specs.LiveLaws.{Runs};

use base::bytes::clear;
use live::step;
use online::Cache;

// The marks and running costs of n requests of a file, into the fronts of two lists; and the state after them.
fn replay(
    cache: Cache,
    id: [u8; 16],
    seconds: &[u32],
    servers: &[u16],
    n: usize,
    marks: &mut [u8],
    costs: &mut [u64],
) -> Cache
    requires { Runs cache id seconds.now servers.now n × (n ≤ length seconds.now) × (n ≤ length servers.now) × (n ≤ length marks.old) × (n ≤ length costs.old) }
    ensures value { result ≡ state_after cache id seconds.now servers.now n }
    ensures marks_after { marks.new ≡ build n (live_mark cache id seconds.now servers.now) ++ drop n marks.old }
    ensures costs_after { costs.new ≡ build n (live_cost cache id seconds.now servers.now) ++ drop n costs.old }
{
    let mut state = cache;
    for i in 0..n {
        let t = step(state, id, seconds[i], servers[i]);
        marks[i] = t.mark;
        costs[i] = t.cost;
        state = t.cache;
    }
    state
}

// The same, and zeros after them.
pub(crate) fn give_live(
    cache: Cache,
    id: [u8; 16],
    seconds: &[u32],
    servers: &[u16],
    n: usize,
    marks: &mut [u8],
    costs: &mut [u64],
) -> Cache
    requires { Runs cache id seconds.now servers.now n × (n ≤ length seconds.now) × (n ≤ length servers.now) × (n ≤ length marks.old) × (n ≤ length costs.old) }
    ensures value { result ≡ state_after cache id seconds.now servers.now n }
    ensures marks_after { marks.new ≡ lent (Ok tt) (build n (live_mark cache id seconds.now servers.now)) marks.old }
    ensures costs_after { costs.new ≡ lent (Ok tt) (build n (live_cost cache id seconds.now servers.now)) costs.old }
{
    let end = replay(cache, id, seconds, servers, n, marks, costs);
    clear(marks, n);
    clear(costs, n);
    end
}
