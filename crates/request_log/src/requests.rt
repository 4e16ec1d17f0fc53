// The requests of a log: six bytes each from byte 40 on, the second and then the server.
ghost use Rattle.std.specs.Prelude.{◌≡◌, ◌+◌, ◌*◌, ◌≤◌, length};
ghost use Rattle.base.specs.Bytes.{le16, le32};
ghost use Rattle.request_log.specs.Fields.{request_count, seconds_of};
ghost use Rattle.request_log.specs.Conditions.{before};

use crate::Request;
use base::bytes::{at16, at32};

// Where request k begins, from 0.
pub fn request_place(k: u16) -> usize
    ensures { result ≡ 40 + 6 * k }
{
    40 + 6 * usize::from(k)
}

// A request by its six bytes; 0 stands for a byte that is not there.
pub fn request_in(bytes: &[u8]) -> Request
    ensures { (result.second ≡ le32 bytes.now 0) × (result.server ≡ le16 bytes.now 4) }
{
    let second = at32(bytes, 0);
    let server = at16(bytes, 4);
    Request { second, server }
}

// Request k of a log that has it.
pub(crate) fn request_at(log: &[u8], k: u16) -> Request
    requires { 46 + 6 * k ≤ length log.now }
    ensures { (result.second ≡ le32 log.now (40 + 6 * k)) × (result.server ≡ le16 log.now (44 + 6 * k)) }
{
    let i = request_place(k);
    request_in(&log[i..i + 6])
}

// The second of the last request, 0 where there is none.
#[tactic(auto, using(crate::specs::RequestLaws::last_none, crate::specs::RequestLaws::last_read), unfolding(crate::specs::Fields::request_count))]
pub fn last_second(log: &[u8]) -> u32
    ensures { result ≡ before (seconds_of log.now) (request_count log.now) }
{
    let n = at16(log, 6);
    if n == 0 {
        return 0;
    }
    at32(log, 34 + 6 * usize::from(n))
}
