// The rows of a plan, from its marks and the words of the holders over its gaps.
ghost use Rattle.std.specs.Prelude.{◌≡◌, ◌+◌, ◌-◌, ◌<◌, ◌≤◌, length};
ghost use Rattle.model.specs.Marking.{begins_run, run_end, hold_rows, transfers, uploads};
ghost use Rattle.planner.specs.RowWriting.{Put, put_rows, row_given, rows_in, put_given};
ghost use Rattle.planner.specs.Basis.{asked, marked, held, source, based_rows};
ghost use Rattle.planner.specs.WordRows.{new_hold, word_holds, new_transfer, new_upload};

use crate::reads::{loaded, second, sent, server, word};
use base::sets::{has, nearest};

// What n requests' rows are made from: the seconds and servers of the requests, the words of the holders over the gaps, the letters of the marks.
#[derive(Clone, Copy)]
pub(crate) struct Basis<'a> {
    pub(crate) times: &'a [u32],
    pub(crate) servers: &'a [u16],
    pub(crate) words: &'a [u64],
    pub(crate) letters: &'a [u8],
    pub(crate) n: u16,
}

// A row that there may be, as row k, where it fits; the number of the next row.
fn put_row(out: &mut [u32], k: u32, row: Option<[u32; 4]>) -> u32
    requires { k < 2147483648 }
    ensures next { (result ≡ k + rows_in row) × (result ≤ k + 1) }
    ensures placed { out.new ≡ put_given k row out.old }
{
    match row {
        None => k,
        Some(numbers) => {
            let at = 4 * (k as usize);
            if at + 4 <= out.len() {
                out[at..at + 4].copy_from_slice(&numbers);
            }
            k + 1
        }
    }
}

impl<'a> Basis<'a> {
    // Server y holds over gap k.
    #[tactic(auto, unfolding(crate::specs::WordRows::holder_at))]
    fn holds(&self, y: u16, k: usize) -> bool
        ensures { result ≡ held self.now y k }
    {
        has(word(self.words, k), y)
    }

    // A hold of server y begins with gap k.
    #[tactic(auto, unfolding(model::specs::Marking::begins_run))]
    fn begins(&self, y: u16, k: usize) -> bool
        ensures { result ≡ begins_run (held self.now y) k }
    {
        self.holds(y, k) && (k <= 1 || !self.holds(y, k - 1))
    }

    // The last gap of server y's run that gap k is in.
    #[tactic(auto, using(crate::specs::RowSteps::run_stops, crate::specs::RowSteps::run_goes, crate::specs::RowSteps::run_last))]
    fn last_of_run(&self, y: u16, k: usize) -> usize
        requires { k ≤ self.now.n }
        ensures { result ≡ run_end (held self.now y) k (self.now.n - k) }
    {
        let end = usize::from(self.n);
        for e in k..end {
            if !self.holds(y, e + 1) {
                return e;
            }
        }
        end
    }

    // The hold of server y that begins with gap k + 1, if one does.
    #[tactic(auto, unfolding(crate::specs::WordRows::new_hold, model::specs::RowForm::numbers))]
    fn hold(&self, y: u16, k: usize) -> Option<[u32; 4]>
        requires { k < self.now.n }
        ensures { result ≡ row_given (new_hold (asked self.now) (held self.now y) self.now.n y k) }
    {
        if self.begins(y, k + 1) {
            let end = self.last_of_run(y, k + 1);
            Some([
                0,
                u32::from(y),
                second(self.times, k),
                second(self.times, end),
            ])
        } else {
            None
        }
    }

    // The transfer to request k + 1, if it is S, from the nearest holder over the gap before it.
    #[tactic(auto, unfolding(crate::specs::WordRows::new_transfer, crate::specs::WordRows::word_source, model::specs::RowForm::numbers))]
    fn transfer(&self, k: usize) -> Option<[u32; 4]>
        requires { k < self.now.n }
        ensures { result ≡ row_given (new_transfer (asked self.now) (marked self.now) (source self.now) k) }
    {
        if sent(self.letters, k) {
            let i = k + 1;
            let target = server(self.servers, i);
            Some([
                1,
                nearest(word(self.words, i), target),
                u32::from(target),
                second(self.times, i),
            ])
        } else {
            None
        }
    }

    // The upload to request k + 1, if it is U.
    #[tactic(auto, unfolding(crate::specs::WordRows::new_upload, model::specs::RowForm::numbers))]
    fn upload(&self, k: usize) -> Option<[u32; 4]>
        requires { k < self.now.n }
        ensures { result ≡ row_given (new_upload (asked self.now) (marked self.now) k) }
    {
        if loaded(self.letters, k) {
            let target = u32::from(server(self.servers, k + 1));
            let moment = second(self.times, k + 1);
            Some([2, target, moment, 0])
        } else {
            None
        }
    }

    // The holds of server y, from row `at` on; the number of the next row.
    fn put_server(&self, y: u16, at: u32, out: &mut [u32]) -> u32
        requires { at < 1073741824 }
        ensures { (result ≤ at + self.now.n) × Put at (hold_rows (asked self.now) (held self.now y) self.now.n y self.now.n) out.old result out.new }
    {
        let mut next = at;
        for k in 0..usize::from(self.n) {
            next = put_row(out, next, self.hold(y, k));
        }
        next
    }

    // The holds of the servers below the count, from the first row on; the number of the next row.
    fn put_holds(&self, count: u8, out: &mut [u32]) -> u32
        ensures { (result < 1073741824) × Put 0 (word_holds (asked self.now) self.now.words.now self.now.n count) out.old result out.new }
    {
        let mut next: u32 = 0;
        for y in 0..u16::from(count) {
            next = self.put_server(y, next, out);
        }
        next
    }

    // The transfers, from row `at` on; the number of the next row.
    fn put_transfers(&self, at: u32, out: &mut [u32]) -> u32
        requires { at < 1073741824 }
        ensures { (result < 1073807360) × Put at (transfers (asked self.now) (marked self.now) (source self.now) self.now.n) out.old result out.new }
    {
        let mut next = at;
        for k in 0..usize::from(self.n) {
            next = put_row(out, next, self.transfer(k));
        }
        next
    }

    // The uploads, from row `at` on.
    fn put_uploads(&self, at: u32, out: &mut [u32])
        requires { at < 1073807360 }
        ensures { out.new ≡ put_rows at (uploads (asked self.now) (marked self.now) self.now.n) out.old }
    {
        let mut next = at;
        for k in 0..usize::from(self.n) {
            next = put_row(out, next, self.upload(k));
        }
    }

    // All rows, `found` in all, at the front of a list.
    pub(crate) fn put_all(&self, count: u8, found: u32, out: &mut [u32])
        requires { found ≡ length (based_rows self.now count) }
        ensures { out.new ≡ put_rows 0 (based_rows self.now count) out.old }
    {
        let next = self.put_holds(count, out);
        let next = self.put_transfers(next, out);
        if next != found {
            self.put_uploads(next, out);
        }
    }
}
