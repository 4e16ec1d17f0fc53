// A start: the copy at home, or 37, 38, 3, 43, 4, 5; and one for a log that there is, without 43.
#![tactic(auto, using(crate::specs::StartLaws::set_one, crate::specs::StartLaws::build_const), unfolding(crate::specs::Rules::fresh, crate::specs::Rules::zeros, crate::specs::Answers::started_by))]

ghost use Rattle.std.specs.Prelude.{◌≡◌};
ghost use Rattle.prices.specs.Tariff.{tariff_of};
ghost use Rattle.prices.specs.Offer.{built_in_offer, file_offer};
ghost use Rattle.request_log.specs.Contents.{setup_in};
ghost use Rattle.online.specs.Rules.{fresh, zeros};
ghost use Rattle.online.specs.Answers.{started_by, started, started_for_log};
ghost use Rattle.online.specs.StartLaws.{WithPrices};

use crate::{Cache, Started};
use base::Verdict;
use base::sets::put;
use prices::{Prices, Tariff, ended};
use request_log::{Header, Setup, offered_fault, setup_fault};

// What a start is judged by: all that it is given but the id.
fn setup_in(header: Header) -> Setup
    ensures { result ≡ setup_in header }
{
    Setup {
        class: header.class,
        server_count: header.server_count,
        home: header.home,
    }
}

// The prices, the file's id, the copy at home, home as the last server, and nothing counted yet.
fn fresh(prices: Prices, header: Header) -> Cache
    ensures { WithPrices prices header (λ table. result ≡ fresh table header) }
{
    let id = header.id;
    let last = u16::from(header.home);
    Cache {
        prices,
        id,
        server_count: header.server_count,
        last,
        holders: put(0, last),
        ..zeros()
    }
}

// The state of a refused start.
fn zeros() -> Cache
    ensures { result ≡ zeros }
{
    Cache {
        prices: Prices {
            hold: 0,
            transfer: 0,
        },
        id: [0u8; 16],
        server_count: 0,
        last: 0,
        second: 0,
        last_use: [0u32; 64],
        holders: 0,
        requests: 0,
        transfers: 0,
        held: 0,
        closed: false,
    }
}

// A fresh state, or a refusal and a state of zeros.
fn given(v: Verdict, prices: Prices, header: Header) -> Started
    ensures { WithPrices prices header (λ table. result ≡ started_by v table header) }
{
    let cache = match v {
        Ok(()) => fresh(prices, header),
        Err(_) => zeros(),
    };
    Started { cache, outcome: v }
}

impl Cache {
    // A start by the built-in table: 3, 43, 4, 5.
    pub fn start(header: Header) -> Started
        ensures { result ≡ started built_in_offer header }
    {
        let tariff = Tariff::built_in();
        let v = offered_fault(tariff, ended(header.class), setup_in(header));
        given(v, tariff.of_class(header.class), header)
    }

    // A start by a price file: 37, 38, 3 to 5.
    pub fn start_with(prices: &[u8], header: Header) -> Started
        ensures { result ≡ started (file_offer prices.now) header }
    {
        let tariff = Tariff::of_file(prices);
        let loaded = offered_fault(tariff, false, setup_in(header));
        given(loaded, tariff.of_class(header.class), header)
    }

    // A start for a log that there is, by a price file and what that was answered: 3 to 5.
    pub fn start_for_log(tariff: Tariff, header: Header) -> Started
        ensures { result ≡ started_for_log (tariff_of tariff.entry) header }
    {
        let fault = setup_fault(tariff, setup_in(header));
        given(fault, tariff.of_class(header.class), header)
    }
}
