// What a call takes its prices from: a price file where one is given, else the built-in table, which is one.
ghost use Rattle.std.specs.Prelude.{◌≡◌, length};
ghost use Rattle.prices.specs.Prices.{prices_of};
ghost use Rattle.prices.specs.Tariff.{built_in, price_file, tariff_of};

use crate::Prices;
use crate::file::{BUILT_IN, class_count, file_fault, of_class};
use base::Verdict;

// The bytes of a price file, and what they were answered.
#[derive(Clone, Copy, Debug, PartialEq, Eq)]
pub struct Tariff<'a> {
    pub judged: Verdict,
    pub file: &'a [u8],
}

impl<'a> Tariff<'a> {
    // The built-in table.
    #[tactic(auto, using(crate::specs::FileLaws::built_in_table), unfolding(crate::specs::PriceFile::built_in_bytes))]
    pub fn built_in() -> Tariff<'a>
        ensures { tariff_of result ≡ built_in }
    {
        Tariff {
            judged: Ok(()),
            file: &BUILT_IN,
        }
    }

    // A price file.
    pub fn of_file(file: &'a [u8]) -> Tariff<'a>
        ensures { tariff_of result ≡ price_file file.now }
    {
        Tariff {
            judged: file_fault(file),
            file,
        }
    }

    // The number of its classes.
    pub fn class_count(self) -> u16
        ensures { result ≡ length (tariff_of self.entry).table }
    {
        class_count(self.file)
    }

    // The prices of a class; zeros for a number that is no class.
    pub fn of_class(self, class: u8) -> Prices
        ensures { result ≡ prices_of (tariff_of self.entry).table class }
    {
        of_class(self.file, class)
    }
}
