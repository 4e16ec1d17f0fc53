// Reads of the planner's lists that are total: 0 past the end.
ghost use Rattle.std.specs.Prelude.{◌≡◌, suc, get_or};
ghost use Rattle.model.specs.Marking.{keeps, sends, loads};
ghost use Rattle.planner.specs.HolderWords.{marking};

use base::bytes::at;

// The second of request i; home's, 0, has place 0.
pub fn second(times: &[u32], i: usize) -> u32
    ensures { result ≡ get_or times.now i 0 }
{
    times.get(i).copied().unwrap_or(0)
}

// The server of request i; home has place 0.
pub fn server(servers: &[u16], i: usize) -> u16
    ensures { result ≡ get_or servers.now i 0 }
{
    servers.get(i).copied().unwrap_or(0)
}

// The word of gap i.
pub fn word(words: &[u64], i: usize) -> u64
    ensures { result ≡ get_or words.now i 0 }
{
    words.get(i).copied().unwrap_or(0)
}

// Request i + 1, whose letter has place i, is K.
#[tactic(auto, using(crate::specs::GapWordLaws::keeps_letter))]
pub fn kept(letters: &[u8], i: usize) -> bool
    ensures { result ≡ keeps (marking letters.now (suc i)) }
{
    at(letters, i) == b'K'
}

// It is S.
#[tactic(auto, using(crate::specs::GapWordLaws::sends_letter))]
pub fn sent(letters: &[u8], i: usize) -> bool
    ensures { result ≡ sends (marking letters.now (suc i)) }
{
    let letter = at(letters, i);
    letter != b'K' && letter != b'U'
}

// It is U.
#[tactic(auto, using(crate::specs::GapWordLaws::loads_letter))]
pub fn loaded(letters: &[u8], i: usize) -> bool
    ensures { result ≡ loads (marking letters.now (suc i)) }
{
    at(letters, i) == b'U'
}
