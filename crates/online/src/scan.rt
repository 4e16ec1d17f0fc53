// A scan: one request at a second and a server, by the rules of 01's 'The live keeper'.
#![tactic(auto, unfolding(crate::specs::Rules::window_of, crate::specs::Rules::copy_at, crate::specs::Rules::use_at, crate::specs::Rules::lasts, crate::specs::Rules::kept, crate::specs::Rules::uses, crate::specs::Rules::stands, crate::specs::Rules::next_use, crate::specs::Rules::seconds, crate::specs::Rules::accept, crate::specs::Answers::mark_outcome, crate::specs::Answers::scanned_by, crate::specs::Answers::scanned))]

ghost use Rattle.std.specs.Prelude.{◌≡◌};
ghost use Rattle.online.specs.Rules.{lasts, kept, uses, stands, next_use, seconds, accept};
ghost use Rattle.online.specs.Passed.{Fit};
ghost use Rattle.online.specs.Serving.{Outlines, Serves, WithUse, WithMark};
ghost use Rattle.online.specs.Answers.{mark_outcome, scanned};

use crate::state::{Outline, expiry, member};
use crate::{Cache, Scanned, Service};
use base::Refusal;
use base::sets::{cut, has, put};

// A request while it is served: its second and server, and whether it is K.
#[derive(Clone, Copy)]
struct Served {
    second: u32,
    server: u16,
    kept: bool,
}

impl Outline {
    // A copy stands at y and has a use at most one window before the second: at its last second it still stands.
    fn lasts(self, used: u32, second: u32, y: u16) -> bool
        ensures { WithUse self used y (λ c. result ≡ lasts c second y) }
    {
        has(self.holders, y) && u64::from(second) <= expiry(used, self.window)
    }

    // The request is K: at the last server, or at one whose copy lasts.
    fn kept(self, used: u32, second: u32, server: u16) -> bool
        ensures { WithUse self used server (λ c. result ≡ kept c second server) }
    {
        server == self.last || self.lasts(used, second, server)
    }

    // The request uses the copy at y: at its own server, and, if it is S, at the last server, from which it is sent.
    fn uses(self, q: Served, y: u16) -> bool
        ensures { WithMark self q (λ c. result ≡ uses c q.second q.server y) }
    {
        y == q.server || !q.kept && y == self.last
    }

    // A copy stands at y after the request: one that it uses, or one that has not expired.
    fn stands(self, q: Served, used: u32, y: u16) -> bool
        ensures { WithUse self used y (λ c. Serves c q → result ≡ stands c q.second q.server y) }
    {
        self.uses(q, y) || self.lasts(used, q.second, y)
    }

    // The last use of y after the request, 0 where no copy stands.
    fn next_use(self, q: Served, used: u32, y: u16) -> u32
        ensures { WithUse self used y (λ c. Serves c q → result ≡ next_use c q.second q.server y) }
    {
        if self.uses(q, y) {
            return q.second;
        }
        if self.stands(q, used, y) {
            return used;
        }
        0
    }

    // The seconds that y held since the last request: the last server up to this one, any other up to its last use plus the window.
    fn seconds(self, used: u32, second: u32, y: u16) -> u32
        ensures { WithUse self used y (λ c. result ≡ seconds c second y) }
    {
        if y == self.last {
            return second.saturating_sub(self.second);
        }
        if !has(self.holders, y) {
            return 0;
        }
        second
            .min(used.saturating_add(self.window))
            .saturating_sub(self.second)
    }

    // K, or S from the last server, with the running cost.
    fn mark(self, q: Served, cost: u64) -> Result<Service, Refusal>
        ensures { WithMark self q (λ c. result ≡ mark_outcome c q.second q.server cost) }
    {
        if q.kept {
            return Ok(Service::Kept { cost });
        }
        Ok(Service::Sent {
            source: self.last,
            cost,
        })
    }
}

impl Cache {
    // The next state. No server has anything to add but the holders and the request's own.
    fn accept(self, o: Outline, q: Served) -> Cache
        requires { Outlines self o × Serves self q × Fit self q.second q.server }
        ensures { result ≡ accept self q.second q.server }
    {
        let mut left = put(o.holders, q.server);
        let mut last_use = [0u32; 64];
        let mut holders: u64 = 0;
        let mut held: u32 = 0;
        while left != 0 {
            let y = member(left);
            let at = usize::from(y);
            let used = self.last_use[at];
            last_use[at] = o.next_use(q, used, y);
            if o.stands(q, used, y) {
                holders = put(holders, y);
            }
            held += o.seconds(used, q.second, y);
            left = cut(left, y);
        }
        Cache {
            last: q.server,
            second: q.second,
            last_use,
            holders,
            requests: self.requests + 1,
            transfers: self.transfers + u32::from(!q.kept),
            held: self.held + held,
            ..self
        }
    }

    // The request's mark with the running cost after it, and the next state, or 11, 12, 32, 33, 39, 34, 35 and the same state.
    pub fn scan(self, id: [u8; 16], second: u32, server: u16) -> Scanned
        ensures { result ≡ scanned self id second server }
    {
        let o = self.outline();
        if let Err(r) = self.scan_fault(o, id, second, server) {
            return Scanned {
                cache: self,
                outcome: Err(r),
            };
        }
        let used = self.use_at(server);
        let q = Served {
            second,
            server,
            kept: o.kept(used, second, server),
        };
        let cache = self.accept(o, q);
        let cost = cache.running_cost();
        Scanned {
            cache,
            outcome: o.mark(q, cost),
        }
    }
}
