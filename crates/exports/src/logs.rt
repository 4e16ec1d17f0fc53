// Sum, reader and writer.
ghost use Rattle.std.specs.Prelude.{◌≡◌, length};
ghost use Rattle.prices.specs.Tariff.{built_in, price_file};
ghost use Rattle.prices.specs.Offer.{built_in_offer, file_offer};
ghost use Rattle.checksum.specs.Sum.{sum_of};
ghost use Rattle.request_log.specs.Contents.{contents};
ghost use Rattle.request_log.specs.Answers.{read_verdict, decoded, seconds_left, servers_left, write_verdict, written, log_left};
ghost use Rattle.exports.specs.Answers.{of_number, read_answer};

use crate::Answer;
use request_log::{Decoded, Header};

// The reader's answer: its value is the number of requests.
#[repr(C)]
#[derive(Clone, Copy)]
pub struct ReadAnswer {
    pub header: Header,
    pub answer: Answer,
}

impl From<Decoded> for ReadAnswer {
    ghost from_gives = { λ decoded answer. answer ≡ read_answer decoded };

    fn from(decoded: Decoded) -> ReadAnswer {
        ReadAnswer {
            header: decoded.header,
            answer: Answer::from(decoded.outcome.map(u64::from)),
        }
    }
}

#[unsafe(no_mangle)]
pub extern "C" fn caching_sum(log: &[u8]) -> u32
    ensures { result ≡ sum_of log.now }
{
    checksum::sum(log)
}

#[unsafe(no_mangle)]
pub extern "C" fn caching_read(log: &[u8], seconds: &mut [u32], servers: &mut [u16]) -> ReadAnswer
    ensures value { result ≡ read_answer (decoded (read_verdict built_in log.now (length seconds.old) (length servers.old)) log.now) }
    ensures seconds_after { seconds.new ≡ seconds_left built_in log.now seconds.old servers.old }
    ensures servers_after { servers.new ≡ servers_left built_in log.now seconds.old servers.old }
{
    ReadAnswer::from(request_log::read(log, seconds, servers))
}

#[unsafe(no_mangle)]
pub extern "C" fn caching_read_with(
    prices: &[u8],
    log: &[u8],
    seconds: &mut [u32],
    servers: &mut [u16],
) -> ReadAnswer
    ensures value { result ≡ read_answer (decoded (read_verdict (price_file prices.now) log.now (length seconds.old) (length servers.old)) log.now) }
    ensures seconds_after { seconds.new ≡ seconds_left (price_file prices.now) log.now seconds.old servers.old }
    ensures servers_after { servers.new ≡ servers_left (price_file prices.now) log.now seconds.old servers.old }
{
    ReadAnswer::from(request_log::read_with(prices, log, seconds, servers))
}

// The answer's value is the log's length.
#[unsafe(no_mangle)]
pub extern "C" fn caching_write(
    header: Header,
    seconds: &[u32],
    servers: &[u16],
    log: &mut [u8],
) -> Answer
    ensures value { result ≡ of_number (written (write_verdict built_in_offer (contents header seconds.now servers.now) (length log.old)) (contents header seconds.now servers.now)) }
    ensures log_after { log.new ≡ log_left built_in_offer (contents header seconds.now servers.now) log.old }
{
    Answer::from(writer::write(header, seconds, servers, log))
}

// The answer's value is the log's length.
#[unsafe(no_mangle)]
pub extern "C" fn caching_write_with(
    prices: &[u8],
    header: Header,
    seconds: &[u32],
    servers: &[u16],
    log: &mut [u8],
) -> Answer
    ensures value { result ≡ of_number (written (write_verdict (file_offer prices.now) (contents header seconds.now servers.now) (length log.old)) (contents header seconds.now servers.now)) }
    ensures log_after { log.new ≡ log_left (file_offer prices.now) (contents header seconds.now servers.now) log.old }
{
    Answer::from(writer::write_with(prices, header, seconds, servers, log))
}
