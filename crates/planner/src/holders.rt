// The holders over each gap, and the rows counted by them.
ghost use Rattle.std.specs.Prelude.{◌≡◌, ◌-◌, ◌≤◌, min};
ghost use Rattle.std.specs.Int.Bits.{bit_and};
ghost use Rattle.base.specs.Lists.{build};
ghost use Rattle.base.specs.Sets.{members};
ghost use Rattle.model.proofs.TableLists.{at};
ghost use Rattle.request_log.specs.Sizes.{most_requests};
ghost use Rattle.planner.specs.Sizes.{places};
ghost use Rattle.planner.specs.HolderWords.{kept_step, or_server, gap_word, marking};
ghost use Rattle.planner.specs.RowCount.{row_count};

use crate::PLACES;
use crate::reads::{kept, loaded, server, word};
use base::sets::{cut, put, size};
use request_log::MOST_REQUESTS;

// The servers kept over a gap, from those kept over the next one, the server of the request between them and whether it is K.
#[tactic(auto, unfolding(crate::specs::HolderWords::kept_step, crate::specs::HolderWords::joined))]
fn kept_step(w: u64, x: u16, kept: bool) -> u64
    ensures { result ≡ kept_step w x kept }
{
    let rest = cut(w, x);
    if kept { put(rest, x) } else { rest }
}

// The servers of a word, or one server where it has none and the gap is not before a U.
#[tactic(auto, unfolding(crate::specs::HolderWords::or_server, crate::specs::HolderWords::joined))]
fn or_server(w: u64, x: u16, loaded: bool) -> u64
    ensures { result ≡ or_server w x loaded }
{
    if w != 0 || loaded { w } else { put(0, x) }
}

// The holders over gaps 1 to n, the word of each at its gap's place.
pub fn holders(servers: &[u16], letters: &[u8], n: u16) -> [u64; PLACES]
    ensures { result ≡ build places (gap_word (at servers.now) (marking letters.now) (min n most_requests)) }
{
    let mut words = [0u64; PLACES];
    let mut w: u64 = 0;
    let end = usize::from(n).min(MOST_REQUESTS);
    for before in (0..end).rev() {
        let i = before + 1;
        w = kept_step(w, server(servers, i), kept(letters, before));
        words[i] = or_server(w, server(servers, before), loaded(letters, before));
    }
    words
}

// The holds that begin with a gap: the copies that stand over it, less those that stood over the gap before it too.
#[tactic(auto, using(crate::specs::RowCountLaws::members_and, base::specs::SetLaws::members_le))]
fn begun(w: u64, before: u64) -> u32
    ensures { (result ≡ members 64 w - members 64 (bit_and w before)) × (result ≤ 64) }
{
    size(w) - size(w & before)
}

// The number of rows of n requests: the holds that begin with each gap, and a transfer or upload to each request that is not K.
#[tactic(auto, using(crate::specs::RowCountLaws::row_count_more, crate::specs::RowCountLaws::sent_number), unfolding(crate::specs::RowCount::begun, crate::specs::RowCount::row_count, model::specs::Sums::sum))]
pub fn row_count(words: &[u64], letters: &[u8], n: u16) -> u32
    ensures { result ≡ row_count words.now (marking letters.now) n }
{
    let mut rows: u32 = 0;
    for k in 0..usize::from(n) {
        rows += begun(word(words, k + 1), word(words, k)) + u32::from(!kept(letters, k));
    }
    rows
}
