// The lines of the page.
ghost use Rattle.std.specs.Prelude.{◌≡◌, [], ◌≤◌, get_or};
ghost use Rattle.text.specs.Page.{page, added};
ghost use Rattle.week.specs.Figures.{Daily, sums_of};
ghost use Rattle.week.specs.PageText.{week_line, server_lines, page_lines};

use crate::days::sum_days;
use crate::{DAYS, SERVERS};
use text::put::{put, put_aligned, put_byte};

// What follows a line's head: its figures, and their sum.
#[tactic(auto, unfolding(crate::specs::PageText::cells, text::specs::Page::added, crate::specs::Days::line_sum, model::specs::Sums::total))]
fn put_figures(text: &mut [u8], at: usize, figures: [u32; DAYS]) -> usize
    ensures { page result text.new ≡ added (week_line [] figures) (page at text.old) }
{
    let mut to = at;
    let mut sum: u64 = 0;
    for figure in figures {
        let n = u64::from(figure);
        to = put_aligned(text, to, 8, n);
        sum += n;
    }
    let end = put_aligned(text, to, 9, sum);
    put_byte(text, end, b'\n')
}

// The lines of the first servers.
#[tactic(auto, unfolding(crate::specs::PageText::server_lines, text::specs::Page::added))]
fn put_servers(text: &mut [u8], table: [[u32; DAYS]; SERVERS], count: usize) -> usize
    requires { count ≤ 64 }
    ensures { page result text.new ≡ added (server_lines (λ y. get_or table y []) count) (page 0 text.old) }
{
    let mut to: usize = 0;
    for y in 0..count {
        let head = put_aligned(text, to, 2, y as u64);
        to = put_figures(text, head, table[y]);
    }
    to
}

// The whole page, at the front of a text.
#[tactic(auto, using(crate::specs::LineLaws::page_parts), unfolding(text::specs::Lines::ascii))]
pub(crate) fn put_page(text: &mut [u8], table: [[u32; DAYS]; SERVERS], count: usize) -> usize
    requires { (count ≤ 64) × Daily table }
    ensures { page result text.new ≡ added (page_lines (λ y. get_or table y []) (sums_of table count) count) (page 0 text.old) }
{
    let sums = sum_days(table, count);
    let a = put_servers(text, table, count);
    let b = put(text, a, b"  ");
    put_figures(text, b, sums)
}
