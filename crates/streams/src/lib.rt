// What programs share: reading into a buffer that is lent, and how an answer prints.
#![tactic(auto)]

ghost use Rattle.std.specs.Prelude.{◌≡◌, ◌⊎◌, length, take, OnOk};
ghost use Rattle.std.specs.Io.KnownBytes.{Consumes, IsAtEnd};
ghost use Rattle.streams.specs.Counts.{IsPrefixLen};

mod answers;

pub use answers::Answer;
use std::io;
use std::io::Read;

// As many bytes as there is room for, or all up to the reader's end or the first read that fails, at the buffer's front; how many, and whether no read failed.
// Each read gives a byte or more.
pub fn read_full<R: Read>(reader: &mut R, buf: &mut [u8]) -> (usize, io::Result<()>)
    ensures prefix_len { IsPrefixLen result.0 buf.new }
    ensures bytes { Consumes (R.remaining reader.old) (R.remaining reader.new) (take result.0 buf.new) }
    ensures end { OnOk result.1 ((result.0 ≡ length buf.new) ⊎ IsAtEnd (R.remaining reader.new)) }
{
    let mut done = 0;
    while done < buf.len() {
        match reader.read(&mut buf[done..]) {
            Ok(0) => return (done, Ok(())),
            Ok(n) => done += n,
            Err(e) => return (done, Err(e)),
        }
    }
    (done, Ok(()))
}
