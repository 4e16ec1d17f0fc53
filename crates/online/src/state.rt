// What a state says of its prices and of each server. A server from 64 on has no copy and no last use.
#![tactic(auto, unfolding(crate::specs::Rules::window_of, crate::specs::Rules::copy_at, crate::specs::Rules::use_at))]

ghost use Rattle.std.specs.Prelude.{true, ◌≢◌, ◌≡◌, ◌+◌, ◌<◌};
ghost use Rattle.base.specs.Sets.{has};
ghost use Rattle.online.specs.Rules.{copy_at, use_at};
ghost use Rattle.online.specs.Serving.{Outlines, WithUse};

use crate::Cache;
use base::sets::{has, lowest};
use prices::window;

// What a state says of all its servers at once: no last uses.
#[derive(Clone, Copy)]
pub struct Outline {
    pub server_count: u16,
    pub last: u16,
    pub second: u32,
    pub holders: u64,
    pub window: u32,
}

impl Cache {
    // The outline of a state.
    pub(crate) fn outline(self) -> Outline
        ensures { Outlines self result }
    {
        Outline {
            server_count: u16::from(self.server_count),
            last: self.last,
            second: self.second,
            holders: self.holders,
            window: window(self.prices),
        }
    }

    // Does a copy stand at server y?
    pub(crate) fn copy_at(self, y: u16) -> bool
        ensures { result ≡ copy_at self y }
    {
        has(self.holders, y)
    }

    // Its last use.
    pub(crate) fn use_at(self, y: u16) -> u32
        ensures { result ≡ use_at self y }
    {
        self.last_use.get(usize::from(y)).copied().unwrap_or(0)
    }
}

// The last second of a copy that was used last at a second.
pub fn expiry(used: u32, window: u32) -> u64
    ensures { result ≡ used + window }
{
    u64::from(used) + u64::from(window)
}

// A member of a set that has one: the lowest.
pub(crate) fn member(set: u64) -> u16
    requires { set ≢ 0 }
    ensures { (has set result ≡ true) × (result < 64) }
{
    lowest(set) as u16
}
