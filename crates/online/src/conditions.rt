// The conditions of a scan and of a close, in 01's order.
#![tactic(auto, using(crate::specs::ConditionLaws::chain, crate::specs::ConditionLaws::pointwise_same), unfolding(crate::specs::Rules::window_of, crate::specs::Rules::copy_at, crate::specs::Rules::use_at, crate::specs::Conditions::any_of, crate::specs::Conditions::server_broken, crate::specs::Conditions::broken, crate::specs::Conditions::scan_conditions, crate::specs::Conditions::running_conditions, crate::specs::Conditions::close_conditions, crate::specs::Answers::scan_verdict, crate::specs::Answers::running_verdict, crate::specs::Answers::close_verdict))]

ghost use Rattle.std.specs.Prelude.{◌≡◌, ltb, eqb};
ghost use Rattle.base.specs.Choice.{either};
ghost use Rattle.online.specs.Servers.{some_server};
ghost use Rattle.online.specs.Conditions.{server_broken, broken};
ghost use Rattle.online.specs.Answers.{scan_verdict, running_verdict, close_verdict};
ghost use Rattle.online.specs.Serving.{Outlines, WithUse, WithUses};
ghost use Rattle.online.specs.Looked.{used_in};

use crate::Cache;
use crate::state::{Outline, expiry, member};
use base::refusals::refuse_if;
use base::sets::{cut, has};
use base::{Reason, Verdict};
use prices::outside as price_outside;

// A number is 0, or above the most that is allowed.
fn outside(x: u32, most: u32) -> bool
    ensures { result ≡ either (eqb x 0) (ltb most x) }
{
    x == 0 || most < x
}

// Some server has a last use other than 0: their sum is not 0.
fn some_used(last_use: &[u32; 64]) -> bool
    ensures { result ≡ some_server 64 (used_in last_use.now) }
{
    let mut sum: u64 = 0;
    for used in last_use {
        sum += u64::from(*used);
    }
    sum != 0
}

impl Outline {
    // Server y is at fault: a copy at or above the count, a last use after the last second, a copy expired before it, or a last use without a copy.
    fn server_broken(self, used: u32, y: u16) -> bool
        ensures { WithUse self used y (λ c. result ≡ server_broken c y) }
    {
        if has(self.holders, y) {
            return self.server_count <= y
                || self.second < used
                || y != self.last && expiry(used, self.window) < u64::from(self.second);
        }
        used != 0
    }

    // Some server is at fault. The holders are asked one by one; any other is at fault if it has a last use at all.
    fn servers_broken(self, last_use: [u32; 64]) -> bool
        ensures { WithUses self last_use (λ c. result ≡ some_server 64 (server_broken c)) }
    {
        let mut rest = last_use;
        let mut left = self.holders;
        while left != 0 {
            let y = member(left);
            let at = usize::from(y);
            if self.server_broken(rest[at], y) {
                return true;
            }
            rest[at] = 0;
            left = cut(left, y);
        }
        some_used(&rest)
    }
}

impl Cache {
    // 32: the state is out of range, or some server is at fault.
    fn broken(self, o: Outline) -> bool
        requires { Outlines self o }
        ensures { result ≡ broken self }
    {
        price_outside(self.prices)
            || outside(u32::from(self.server_count), 64)
            || 4000000 < self.second
            || u16::from(self.server_count) <= self.last
            || !self.copy_at(self.last)
            || self.use_at(self.last) != self.second
            || 2048 < self.requests
            || self.requests < self.transfers
            || 256000000 < self.held
            || o.servers_broken(self.last_use)
    }

    // What refuses a scan: 11, 12, 32, 33, 39, 34, 35.
    pub(crate) fn scan_fault(self, o: Outline, id: [u8; 16], second: u32, server: u16) -> Verdict
        requires { Outlines self o }
        ensures { result ≡ scan_verdict self id second server }
    {
        refuse_if(
            u16::from(self.server_count) <= server,
            Reason::UnknownServer,
            0,
        )?;
        refuse_if(outside(second, 4000000), Reason::SecondRange, 0)?;
        refuse_if(self.broken(o), Reason::BrokenState, 0)?;
        refuse_if(self.closed, Reason::Closed, 0)?;
        refuse_if(id != self.id, Reason::OtherFile, 0)?;
        refuse_if(2048 <= self.requests, Reason::Full, 0)?;
        refuse_if(second <= self.second, Reason::PastSecond, 0)
    }

    // What refuses to say the running cost: 32.
    pub(crate) fn state_fault(self) -> Verdict
        ensures { result ≡ running_verdict self }
    {
        refuse_if(self.broken(self.outline()), Reason::BrokenState, 0)
    }

    // What refuses a close: 32, 33.
    pub(crate) fn close_fault(self) -> Verdict
        ensures { result ≡ close_verdict self }
    {
        self.state_fault()?;
        refuse_if(self.closed, Reason::Closed, 0)
    }
}
