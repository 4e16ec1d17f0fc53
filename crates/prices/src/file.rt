// Price files (02's Req 05): the count of classes, the offset of the prices, then hold and transfer price of each class. The built-in table is one.
ghost use Rattle.std.specs.Prelude.{◌≡◌, ◌+◌, ◌*◌, ◌<◌, ◌≤◌, true, not, eqb, length};
ghost use Rattle.base.specs.declared.reasons.Reason.TheVariants as reason;
ghost use Rattle.base.specs.Choice.{either};
ghost use Rattle.base.specs.Refusals.{first, each};
ghost use Rattle.prices.specs.Prices.{prices_of};
ghost use Rattle.prices.specs.PriceFile.{class_count, prices_offset, pair_at, table_in, form_condition, pair_condition, file_conditions, built_in_bytes};

use crate::{MOST_CLASSES, Prices, outside};
use base::bytes::{at16, at32};
use base::refusals::refuse_if;
use base::{Reason, Refusal, Verdict};

// The most classes of a price file, as it has them.
const MOST: u16 = MOST_CLASSES as u16;

// The built-in table as a price file, and its length.
pub const BUILT_IN_LENGTH: usize = 68;

pub(crate) const BUILT_IN: [u8; BUILT_IN_LENGTH] = [
    8, 0, 4, 0, 1, 0, 0, 0, 10, 0, 0, 0, 1, 0, 0, 0, 25, 0, 0, 0, 2, 0, 0, 0, 25, 0, 0, 0, 3, 0, 0,
    0, 30, 0, 0, 0, 3, 0, 0, 0, 100, 0, 0, 0, 5, 0, 0, 0, 88, 2, 0, 0, 7, 0, 0, 0, 5, 0, 0, 0, 1,
    0, 0, 0, 64, 66, 15, 0,
];

#[tactic(auto, unfolding(crate::specs::PriceFile::built_in_bytes))]
pub fn built_in() -> [u8; BUILT_IN_LENGTH]
    ensures { result ≡ built_in_bytes }
{
    BUILT_IN
}

// The number of classes.
#[tactic(auto, using(crate::specs::PriceLaws::table_length), unfolding(crate::specs::PriceFile::class_count))]
pub fn class_count(file: &[u8]) -> u16
    ensures { result ≡ length (table_in file.now) }
{
    at16(file, 0)
}

// The prices of a class that the file has.
fn pair_at(file: &[u8], class: u16) -> Prices
    requires { 12 + 8 * class ≤ length file.now }
    ensures { result ≡ pair_at file.now class }
{
    let i = 4 + 8 * usize::from(class);
    Prices {
        hold: at32(&file[i..i + 4], 0),
        transfer: at32(&file[i + 4..i + 8], 0),
    }
}

// The prices do not begin where the format says, or the length is not that of n classes.
#[tactic(auto, unfolding(crate::specs::PriceFile::prices_offset))]
fn laid_out_otherwise(file: &[u8], n: u16) -> bool
    ensures { result ≡ either (not (eqb (prices_offset file.now) 4)) (not (eqb (length file.now) (4 + 8 * n))) }
{
    let misplaced = at16(file, 2) != 4;
    misplaced || file.len() != 4 + 8 * usize::from(n)
}

// Count, offset or length are not as the format says.
#[tactic(auto, unfolding(crate::specs::PriceFile::class_count))]
fn misformed(file: &[u8]) -> bool
    ensures { result ≡ (form_condition file.now).holds }
{
    let n = at16(file, 0);
    file.len() < 4 || n == 0 || MOST < n || laid_out_otherwise(file, n)
}

// 38 for each class.
#[tactic(auto, using(crate::specs::FileLaws::pair_passed), unfolding(base::specs::Refusals::first, base::specs::Refusals::each, crate::specs::PriceFile::class_count, crate::specs::PriceFile::pair_condition))]
fn pairs_fault(file: &[u8]) -> Verdict
    requires { length file.now ≡ 4 + 8 * class_count file.now }
    ensures { result ≡ first (each (pair_condition file.now) (class_count file.now)) }
{
    for class in 0..at16(file, 0) {
        refuse_if(
            outside(pair_at(file, class)),
            Reason::PriceRange,
            u64::from(class),
        )?;
    }
    Ok(())
}

// All prices are in range, looked at without a stop. Which class is not is asked for afterwards.
#[tactic(auto, using(crate::specs::FileLaws::pair_passed), unfolding(base::specs::Refusals::first, base::specs::Refusals::each, crate::specs::PriceFile::class_count))]
fn all_inside(file: &[u8]) -> bool
    requires { length file.now ≡ 4 + 8 * class_count file.now }
    ensures { result ≡ true → first (each (pair_condition file.now) (class_count file.now)) ≡ Ok tt }
{
    let mut found = false;
    for class in 0..at16(file, 0) {
        found |= outside(pair_at(file, class));
    }
    !found
}

// What a price file is answered: 37, 38.
#[tactic(auto, using(crate::specs::FileLaws::form_length), unfolding(crate::specs::PriceFile::file_conditions, base::specs::Refusals::first))]
pub fn file_fault(file: &[u8]) -> Verdict
    ensures { result ≡ first (file_conditions file.now) }
{
    refuse_if(misformed(file), Reason::PriceFile, 0)?;
    if all_inside(file) {
        return Ok(());
    }
    pairs_fault(file)
}

// The prices of a class; zeros for a number that is no class.
#[tactic(auto, using(crate::specs::PriceLaws::no_class, crate::specs::PriceLaws::table_length, crate::specs::PriceLaws::table_at, crate::specs::FileLaws::pair_read))]
pub fn of_class(file: &[u8], class: u8) -> Prices
    ensures { result ≡ prices_of (table_in file.now) class }
{
    if class_count(file) <= u16::from(class) {
        return Prices {
            hold: 0,
            transfer: 0,
        };
    }
    let i = 4 + 8 * usize::from(class);
    Prices {
        hold: at32(file, i),
        transfer: at32(file, i + 4),
    }
}
