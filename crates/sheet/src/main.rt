// The sheet program: a log on standard input, its sheet or one line of refusal on standard output. Its one argument, if it has one, names
// a price file.
#![tactic(auto)]

ghost use Rattle.std.specs.Prelude.{◌≡◌, ◌≤◌, ◌<◌, length, take};
ghost use Rattle.prices.specs.PriceFile.{built_in_bytes};
ghost use Rattle.prices.specs.Tariff.{price_file};
ghost use Rattle.request_log.specs.Sizes.{log_limit};
ghost use Rattle.report.specs.Sizes.{sheet_room};
ghost use Rattle.report.specs.Output.{output, price_limit};
ghost use Rattle.streams.specs.Counts.{IsPrefixLen};

use base::bytes::copy;
use prices::{BUILT_IN_LENGTH, built_in};
use report::{PRICE_LIMIT, SHEET_ROOM, sheet_with};
use request_log::LOG_LIMIT;
use std::env::{Env, FillError};
use std::fs;
use std::fs::Files;
use streams::read_full;
use text::put_refusal;

// Room for the longest log and one byte more, so that a longer input is refused as it would be whole.
#[tactic(auto, unfolding(request_log::specs::Sizes::log_limit))]
fn input() -> [u8; LOG_LIMIT]
    ensures { log_limit ≡ length result }
{
    [0u8; LOG_LIMIT]
}

// Room for the longest price file and one byte more, for the same reason.
#[tactic(auto, unfolding(report::specs::Output::price_limit))]
fn price_input() -> [u8; PRICE_LIMIT]
    ensures { price_limit ≡ length result }
{
    [0u8; PRICE_LIMIT]
}

// Room for any sheet.
fn room() -> [u8; SHEET_ROOM]
    ensures { sheet_room ≡ length result }
{
    [0u8; SHEET_ROOM]
}

// Bytes that hold any name of a file, and the zero after it for the system.
const NAME_ROOM: usize = 4096;

// How many words the command has, the program's own name the first.
fn word_count(rt: &impl Env) -> usize {
    for i in 0..usize::MAX {
        if let Err(FillError::NotPresent) = rt.arg(i, &mut []) {
            return i;
        }
    }
    usize::MAX
}

// As much of a file as there is room for, and its length. A file that cannot be opened is empty, and one that cannot be read on ends there. A name that is
// not UTF-8 cannot be handed to std, and counts as one that no file has.
fn read_file(rt: &impl Files, name: &[u8], bytes: &mut [u8]) -> usize
    ensures { IsPrefixLen result bytes.new }
{
    let Ok(name) = str::from_utf8(name) else {
        return 0;
    };
    match fs::open(rt, name) {
        Ok(mut file) => read_full(&mut file, bytes).0,
        Err(_) => 0,
    }
}

// The same for the file that the first argument names. A name too long for any file comes as an empty one, which no file has.
fn read_named(rt: &(impl Files + Env), bytes: &mut [u8]) -> usize
    ensures { IsPrefixLen result bytes.new }
{
    let mut name = [0u8; NAME_ROOM];
    let n = rt.arg(1, &mut name).unwrap_or(0);
    read_file(rt, &name[..n], bytes)
}

// The built-in table, at the front.
fn give_built_in(bytes: &mut [u8]) -> usize
    requires { price_limit ≡ length bytes.old }
    ensures { IsPrefixLen result bytes.new × (take result bytes.new ≡ built_in_bytes) }
{
    copy(bytes, 0, &built_in());
    BUILT_IN_LENGTH
}

// The price file of a command of so many words, the program's own name the first: the built-in table where no other is given, the file that a second
// one names, and an empty file, which is refused, where there are more.
fn price_file(rt: &(impl Files + Env), words: usize, bytes: &mut [u8]) -> usize
    requires { price_limit ≡ length bytes.old }
    ensures prefix_len { IsPrefixLen result bytes.new }
    ensures bytes_after { words < 2 → take result bytes.new ≡ built_in_bytes }
    ensures value { 2 < words → result ≡ 0 }
{
    if words < 2 {
        return give_built_in(bytes);
    }
    if 2 < words {
        return 0;
    }
    read_named(rt, bytes)
}

// All that is written for a price file and an input, the sheet or the line of a refusal, and its length.
fn answer(prices: &[u8], log: &[u8], text: &mut [u8]) -> usize
    requires { sheet_room ≤ length text.old }
    ensures { IsPrefixLen result text.new × (take result text.new ≡ output (price_file prices.now) log.now) }
{
    match sheet_with(prices, log, text) {
        Ok(n) => n as usize,
        Err(r) => put_refusal(text, r),
    }
}

// The price file comes first, so that it is closed before the input is read. An input that cannot be read counts as ended there; where the output cannot
// be written nothing more is done.
fn main(rt: HostRuntime) {
    let mut prices = price_input();
    let m = price_file(&rt, word_count(&rt), &mut prices);
    let mut log = input();
    let (n, _) = read_full(&mut rt.stdin(), &mut log);
    let mut text = room();
    let end = answer(&prices[..m], &log[..n], &mut text);
    let _ = rt.write_all(&text[..end]);
}
