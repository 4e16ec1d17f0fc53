// The prices of 01's 'Prices', of 02's price files and of its uploads.
#![tactic(auto)]

mod file;
mod tariff;

ghost use Rattle.std.specs.Prelude.{◌≡◌, ◌*◌};
ghost use Rattle.base.specs.Refusals.{first};
ghost use Rattle.prices.specs.Prices.{price_outside, outside, window};
ghost use Rattle.prices.specs.Offer.{built_in_offer};
ghost use Rattle.prices.specs.Uploads.{upload_conditions, if_given};

use base::refusals::refuse_if;
use base::{Reason, Verdict};
pub use file::{BUILT_IN_LENGTH, built_in, class_count, file_fault, of_class};
pub use tariff::Tariff;

// What a class costs: the hold price of a copy and second (01: keep), and the transfer price (01: send). Its layout is C's.
#[repr(C)]
#[derive(Clone, Copy, Debug, PartialEq, Eq)]
pub struct Prices {
    pub hold: u32,
    pub transfer: u32,
}

// The most classes of a price file.
pub const MOST_CLASSES: usize = 256;

// Room for any price file.
pub const PRICE_ROOM: usize = 4 + 8 * MOST_CLASSES;

// A class of the built-in table is no longer sold.
pub fn ended(class: u8) -> bool
    ensures { result ≡ built_in_offer.ended class }
{
    class == 7
}

// A price is 0 or above 1,000,000.
fn price_outside(price: u32) -> bool
    ensures { result ≡ price_outside price }
{
    price == 0 || 1000000 < price
}

// One of the two is.
#[tactic(auto, unfolding(crate::specs::Prices::outside))]
pub fn outside(prices: Prices) -> bool
    ensures { result ≡ outside prices }
{
    price_outside(prices.hold) || price_outside(prices.transfer)
}

// 44: an upload price is given and out of range.
#[tactic(auto, unfolding(crate::specs::Uploads::upload_conditions, crate::specs::Uploads::if_given, base::specs::Refusals::first))]
pub fn upload_fault(upload: Option<u32>) -> Verdict
    ensures { result ≡ first (upload_conditions (if_given upload)) }
{
    match upload {
        Some(price) => refuse_if(price_outside(price), Reason::UploadPrice, 0),
        None => Ok(()),
    }
}

// The window: the transfer price divided by the hold price, rounded down; 0 where holding is free.
#[tactic(auto, unfolding(crate::specs::Prices::window))]
pub fn window(prices: Prices) -> u32
    ensures { result ≡ window prices }
{
    if prices.hold == 0 {
        return 0;
    }
    prices.transfer / prices.hold
}

// A price, paid a number of times.
pub fn times(price: u32, n: u32) -> u64
    ensures { result ≡ price * n }
{
    u64::from(price) * u64::from(n)
}
