// Weeks of at most seven requests. Home at second 0 has place 0, request i place i.
use prices::Prices;

// The second and the server of each place.
#[derive(Clone, Copy)]
pub(crate) struct Small {
    pub(crate) seconds: [u32; 8],
    pub(crate) servers: [u16; 8],
}

impl Small {
    pub(crate) fn second(&self, i: usize) -> u32 {
        if i < 8 { self.seconds[i] } else { 0 }
    }

    pub(crate) fn server(&self, i: usize) -> u16 {
        if i < 8 { self.servers[i] } else { 0 }
    }

    // The last place before i at the same server.
    pub(crate) fn previous(&self, i: usize) -> Option<usize> {
        let server = self.server(i);
        (0..i).rev().find(|j| self.server(*j) == server)
    }

    // What it costs to hold from one place to another.
    pub(crate) fn held(&self, prices: Prices, from: usize, to: usize) -> u64 {
        let seconds = self.second(to).saturating_sub(self.second(from));
        u64::from(prices.hold) * u64::from(seconds)
    }
}
