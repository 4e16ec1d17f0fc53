// The lines of the sheet.
ghost use Rattle.std.specs.Prelude.{◌≡◌, ◌+◌, ◌*◌, ◌≤◌, length, take};
ghost use Rattle.request_log.specs.Sizes.{most_requests};
ghost use Rattle.text.specs.Page.{page, added};
ghost use Rattle.report.specs.Sizes.{entry_room, sheet_room};
ghost use Rattle.report.specs.Text.{heading, entry_line, entry_lines, sheet_text, entry_of};
ghost use Rattle.report.specs.Columns.{Holds, columns_in};

use crate::Entry;
use text::put::{put, put_byte, put_field, put_letter, put_line, put_number};

// The first line.
#[tactic(auto, unfolding(crate::specs::Text::heading, text::specs::Lines::ascii))]
pub fn put_heading(text: &mut [u8], at: usize) -> usize
    ensures { page result text.new ≡ added heading (page at text.old) }
{
    put(text, at, b"scan second station plan live least bill\n")
}

// A request's line.
pub fn put_entry(text: &mut [u8], at: usize, entry: Entry) -> usize
    ensures text_after { page result text.new ≡ added (entry_line entry) (page at text.old) }
    ensures len_bound { length (entry_line entry) ≤ entry_room }
{
    let a = put_number(text, at, entry.number);
    let b = put_field(text, a, entry.second);
    let c = put_field(text, b, entry.server);
    let d = put_letter(text, c, entry.plan);
    let e = put_letter(text, d, entry.live);
    let f = put_field(text, e, entry.least);
    let g = put_field(text, f, entry.cost);
    put_byte(text, g, b'\n')
}

// What a sheet's lines say of the requests, one list for each column; the least costs begin with that of no requests.
#[derive(Clone, Copy)]
pub(crate) struct Columns<'a> {
    pub seconds: &'a [u32],
    pub servers: &'a [u16],
    pub plan: &'a [u8],
    pub live: &'a [u8],
    pub least: &'a [u64],
    pub costs: &'a [u64],
}

impl<'a> Columns<'a> {
    // What the line of request i, from 0, says.
    #[tactic(auto, unfolding(crate::specs::Text::entry_of))]
    fn entry(self, i: usize) -> Entry
        requires { Holds (columns_in self) (i + 1) }
        ensures { result ≡ entry_of (columns_in self.entry) i }
    {
        Entry {
            number: (i + 1) as u64,
            second: u64::from(self.seconds[i]),
            server: u64::from(self.servers[i]),
            plan: self.plan[i],
            live: self.live[i],
            least: self.least[i + 1],
            cost: self.costs[i],
        }
    }
}

// The lines of the first n requests.
pub(crate) fn put_entries(text: &mut [u8], at: usize, columns: Columns, n: usize) -> usize
    requires { Holds (columns_in columns) n }
    ensures text_after { page result text.new ≡ added (entry_lines (entry_of (columns_in columns.entry)) n) (page at text.old) }
    ensures n_len_bound { length (entry_lines (entry_of (columns_in columns.entry)) n) ≤ entry_room * n }
{
    let mut to = at;
    for i in 0..n {
        to = put_entry(text, to, columns.entry(i));
    }
    to
}

// The whole sheet of n requests, at the front of a text that has room for any.
pub(crate) fn put_lines(
    text: &mut [u8],
    columns: Columns,
    n: usize,
    rows: u64,
    closing: u64,
) -> usize
    requires { (n ≤ most_requests) × Holds (columns_in columns) most_requests × (sheet_room ≤ length text.old) }
    ensures { (result ≤ length text.new) × (take result text.new ≡ sheet_text (entry_of (columns_in columns.entry)) n rows closing) }
{
    let a = put_heading(text, 0);
    let b = put_entries(text, a, columns, n);
    let c = put_line(text, b, b"rows", &[rows]);
    put_line(text, c, b"close", &[closing])
}
