// Checker, planner and least costs, each without and with an upload price, and quote.
ghost use Rattle.std.proofs.Math.Option.{none, some};
ghost use Rattle.std.specs.Prelude.{◌≡◌, length};
ghost use Rattle.prices.specs.Tariff.{built_in, price_file};
ghost use Rattle.checker.specs.Answers.{check_answer};
ghost use Rattle.planner.specs.Answers.{plan_verdict, planned, marks_left, rows_left, least_verdict, least_answer, costs_left};
ghost use Rattle.quote.specs.Answers.{quote_answer};
ghost use Rattle.exports.specs.Answers.{of_number, of_plan};

use crate::Answer;

// The answer's value is the cost.
#[unsafe(no_mangle)]
pub extern "C" fn caching_check(log: &[u8], rows: &[u32]) -> Answer
    ensures { result ≡ of_number (check_answer built_in none log.now rows.now) }
{
    Answer::from(checker::check(log, rows))
}

// The answer's value is the cost.
#[unsafe(no_mangle)]
pub extern "C" fn caching_check_with(prices: &[u8], log: &[u8], rows: &[u32]) -> Answer
    ensures { result ≡ of_number (check_answer (price_file prices.now) none log.now rows.now) }
{
    Answer::from(checker::check_with(prices, log, rows))
}

// The answer's value is the cost.
#[unsafe(no_mangle)]
pub extern "C" fn caching_check_uploads(upload: u32, log: &[u8], rows: &[u32]) -> Answer
    ensures { result ≡ of_number (check_answer built_in (some upload) log.now rows.now) }
{
    Answer::from(checker::check_uploads(upload, log, rows))
}

// The answer's value is the cost.
#[unsafe(no_mangle)]
pub extern "C" fn caching_check_uploads_with(
    prices: &[u8],
    upload: u32,
    log: &[u8],
    rows: &[u32],
) -> Answer
    ensures { result ≡ of_number (check_answer (price_file prices.now) (some upload) log.now rows.now) }
{
    Answer::from(checker::check_uploads_with(prices, upload, log, rows))
}

// The answer's values are the cost and the number of rows.
#[unsafe(no_mangle)]
pub extern "C" fn caching_plan(log: &[u8], marks: &mut [u8], rows: &mut [u32]) -> Answer
    ensures value { result ≡ of_plan (planned (plan_verdict built_in none log.now (length marks.old) (length rows.old)) built_in none log.now) }
    ensures marks_after { marks.new ≡ marks_left built_in none log.now marks.old rows.old }
    ensures rows_after { rows.new ≡ rows_left built_in none log.now marks.old rows.old }
{
    Answer::from(planner::plan(log, marks, rows))
}

// The answer's values are the cost and the number of rows.
#[unsafe(no_mangle)]
pub extern "C" fn caching_plan_with(
    prices: &[u8],
    log: &[u8],
    marks: &mut [u8],
    rows: &mut [u32],
) -> Answer
    ensures value { result ≡ of_plan (planned (plan_verdict (price_file prices.now) none log.now (length marks.old) (length rows.old)) (price_file prices.now) none log.now) }
    ensures marks_after { marks.new ≡ marks_left (price_file prices.now) none log.now marks.old rows.old }
    ensures rows_after { rows.new ≡ rows_left (price_file prices.now) none log.now marks.old rows.old }
{
    Answer::from(planner::plan_with(prices, log, marks, rows))
}

// The answer's values are the cost and the number of rows.
#[unsafe(no_mangle)]
pub extern "C" fn caching_plan_uploads(
    upload: u32,
    log: &[u8],
    marks: &mut [u8],
    rows: &mut [u32],
) -> Answer
    ensures value { result ≡ of_plan (planned (plan_verdict built_in (some upload) log.now (length marks.old) (length rows.old)) built_in (some upload) log.now) }
    ensures marks_after { marks.new ≡ marks_left built_in (some upload) log.now marks.old rows.old }
    ensures rows_after { rows.new ≡ rows_left built_in (some upload) log.now marks.old rows.old }
{
    Answer::from(planner::plan_uploads(upload, log, marks, rows))
}

// The answer's values are the cost and the number of rows.
#[unsafe(no_mangle)]
pub extern "C" fn caching_plan_uploads_with(
    prices: &[u8],
    upload: u32,
    log: &[u8],
    marks: &mut [u8],
    rows: &mut [u32],
) -> Answer
    ensures value { result ≡ of_plan (planned (plan_verdict (price_file prices.now) (some upload) log.now (length marks.old) (length rows.old)) (price_file prices.now) (some upload) log.now) }
    ensures marks_after { marks.new ≡ marks_left (price_file prices.now) (some upload) log.now marks.old rows.old }
    ensures rows_after { rows.new ≡ rows_left (price_file prices.now) (some upload) log.now marks.old rows.old }
{
    Answer::from(planner::plan_uploads_with(prices, upload, log, marks, rows))
}

// The answer's value is the number of costs.
#[unsafe(no_mangle)]
pub extern "C" fn caching_least(log: &[u8], costs: &mut [u64]) -> Answer
    ensures value { result ≡ of_number (least_answer (least_verdict built_in none log.now (length costs.old)) log.now) }
    ensures costs_after { costs.new ≡ costs_left built_in none log.now costs.old }
{
    Answer::from(planner::least(log, costs).map(u64::from))
}

// The answer's value is the number of costs.
#[unsafe(no_mangle)]
pub extern "C" fn caching_least_with(prices: &[u8], log: &[u8], costs: &mut [u64]) -> Answer
    ensures value { result ≡ of_number (least_answer (least_verdict (price_file prices.now) none log.now (length costs.old)) log.now) }
    ensures costs_after { costs.new ≡ costs_left (price_file prices.now) none log.now costs.old }
{
    Answer::from(planner::least_with(prices, log, costs).map(u64::from))
}

// The answer's value is the number of costs.
#[unsafe(no_mangle)]
pub extern "C" fn caching_least_uploads(upload: u32, log: &[u8], costs: &mut [u64]) -> Answer
    ensures value { result ≡ of_number (least_answer (least_verdict built_in (some upload) log.now (length costs.old)) log.now) }
    ensures costs_after { costs.new ≡ costs_left built_in (some upload) log.now costs.old }
{
    Answer::from(planner::least_uploads(upload, log, costs).map(u64::from))
}

// The answer's value is the number of costs.
#[unsafe(no_mangle)]
pub extern "C" fn caching_least_uploads_with(
    prices: &[u8],
    upload: u32,
    log: &[u8],
    costs: &mut [u64],
) -> Answer
    ensures value { result ≡ of_number (least_answer (least_verdict (price_file prices.now) (some upload) log.now (length costs.old)) log.now) }
    ensures costs_after { costs.new ≡ costs_left (price_file prices.now) (some upload) log.now costs.old }
{
    Answer::from(planner::least_uploads_with(prices, upload, log, costs).map(u64::from))
}

// The answer's value is the quote.
#[unsafe(no_mangle)]
pub extern "C" fn caching_quote(log: &[u8]) -> Answer
    ensures { result ≡ of_number (quote_answer built_in log.now) }
{
    Answer::from(quote::quote(log))
}

// The answer's value is the quote.
#[unsafe(no_mangle)]
pub extern "C" fn caching_quote_with(prices: &[u8], log: &[u8]) -> Answer
    ensures { result ≡ of_number (quote_answer (price_file prices.now) log.now) }
{
    Answer::from(quote::quote_with(prices, log))
}
