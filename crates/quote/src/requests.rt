// What each request of a log adds to the quote, by the last second at each server.
ghost use Rattle.std.specs.Prelude.{◌≡◌, ◌<◌, set};
ghost use Rattle.prices.specs.Prices.{InRange};
ghost use Rattle.request_log.specs.Fields.{request_count};
ghost use Rattle.request_log.specs.Ranges.{Sound};
ghost use Rattle.model.specs.LogRequests.{requests_in};
ghost use Rattle.model.specs.Quote.{sum_part};
ghost use Rattle.model.proofs.TableLists.{at};
ghost use Rattle.quote.specs.Lasts.{own_since};

use base::bytes::{at, at16};
use prices::{Prices, times};
use request_log::{Request, request_in, request_place};

// What stands for the last second of a server without a request: it comes after every second of a log.
const NONE: u32 = 4294967295;

// What a request costs by itself, by the last second at its server; one that comes after it stands for none.
#[tactic(auto, unfolding(crate::specs::Lasts::own_since))]
fn own_since(p: Prices, last: u32, second: u32) -> u64
    ensures { result ≡ own_since p last second }
{
    let transfer = u64::from(p.transfer);
    if second < last {
        return transfer;
    }
    transfer.min(times(p.hold, second - last))
}

// What a request adds; its second is the last at its server from then on.
fn add_request(p: Prices, request: Request, lasts: &mut [u32; 64]) -> u64
    requires { request.server < 64 }
    ensures value { result ≡ own_since p (at lasts.old request.server) request.second }
    ensures lasts_after { lasts.new ≡ set lasts.old request.server request.second }
{
    let y = usize::from(request.server);
    let last = lasts[y];
    lasts[y] = request.second;
    own_since(p, last, request.second)
}

// What all requests of a log add.
pub(crate) fn sum_part(p: Prices, log: &[u8]) -> u64
    requires { InRange p × Sound log.now }
    ensures { result ≡ sum_part p (requests_in log.now) (request_count log.now) }
{
    let mut lasts = [NONE; 64];
    lasts[usize::from(at(log, 4))] = 0;
    let mut sum = 0;
    for k in 0..at16(log, 6) {
        let i = request_place(k);
        sum += add_request(p, request_in(&log[i..i + 6]), &mut lasts);
    }
    sum
}
