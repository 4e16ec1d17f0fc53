// Sets of servers, in a word: server k is a member where bit k is 1. No word has a member from 64 on.
ghost use Rattle.std.specs.Prelude.{◌≡◌, ltb};
ghost use Rattle.base.specs.Choice.{pick};
ghost use Rattle.base.specs.Sets.{has, put, cut, members, lowest};
ghost use Rattle.base.specs.Nearest.{nearest};

// Is server k a member?
pub fn has(w: u64, k: u16) -> bool
    ensures { result ≡ has w k }
{
    if 64 <= k {
        return false;
    }
    (w >> k) % 2 == 1
}

// The set with server k; the same set for a k from 64 on.
pub fn put(w: u64, k: u16) -> u64
    ensures { result ≡ pick (ltb k 64) (put w k) w }
{
    if 64 <= k {
        return w;
    }
    w | 1u64 << k
}

// The set without server k.
pub fn cut(w: u64, k: u16) -> u64
    ensures { result ≡ cut w k }
{
    if has(w, k) {
        return w ^ (1u64 << k);
    }
    w
}

// The number of members.
pub fn size(w: u64) -> u32
    ensures { result ≡ members 64 w }
{
    u64::count_ones(w)
}

// The lowest member, or 64 where the set is empty.
pub fn lowest(w: u64) -> u32
    ensures { result ≡ lowest 64 (has w) }
{
    u64::trailing_zeros(w)
}

// The member nearest to t, the lower of two equally near, or 0 where the set is empty. `behind` is how far below t the next member is, its leading
// zeros counted with t - 1 at the top of the word, and more than 64 where there is none; `ahead` how far from t on, and 64 where there is none.
pub fn nearest(w: u64, t: u16) -> u32
    ensures { result ≡ nearest 64 (has w) t }
{
    if w == 0 {
        return 0;
    }
    if 64 <= t {
        return 63 - u64::leading_zeros(w);
    }
    let at = u32::from(t);
    let behind = u64::leading_zeros(w << 1u16 << (63 - t)) + 1;
    let ahead = lowest(w >> t);
    if behind <= ahead {
        return at - behind;
    }
    at + ahead
}
