// Bytes put over a text one after the other. Each call gives the place after what it put; past the end nothing is changed.
ghost use Rattle.std.specs.Prelude.{[], ◌∷◌, ◌++◌, ◌≡◌, ◌+◌, ◌-◌, ◌<◌, replicate};
ghost use Rattle.text.specs.Decimal.{decimal};
ghost use Rattle.text.specs.Page.{page, add_byte, added};
ghost use Rattle.text.specs.Lines.{ascii, aligned, figure_line};

// One byte.
pub fn put_byte(text: &mut [u8], at: usize, b: u8) -> usize
    ensures { page result text.new ≡ add_byte b (page at text.old) }
{
    if text.len() <= at {
        return at;
    }
    text[at] = b;
    at + 1
}

// The bytes of a slice.
pub fn put(text: &mut [u8], at: usize, from: &[u8]) -> usize
    ensures { page result text.new ≡ added from.now (page at text.old) }
{
    let mut to = at;
    for b in from {
        to = put_byte(text, to, *b);
    }
    to
}

// A digit as ASCII.
fn digit(n: u64) -> u8
    requires { n < 10 }
    ensures { result ≡ 48 + n }
{
    48 + n as u8
}

// A number in decimal.
pub fn put_number(text: &mut [u8], at: usize, n: u64) -> usize
    ensures { page result text.new ≡ added (decimal n) (page at text.old) }
{
    if n < 10 {
        return put_byte(text, at, digit(n));
    }
    let to = put_number(text, at, n / 10);
    put_byte(text, to, digit(n % 10))
}

// One space and a number, as a further field of a line.
pub fn put_field(text: &mut [u8], at: usize, n: u64) -> usize
    ensures { page result text.new ≡ added (ascii " " ++ decimal n) (page at text.old) }
{
    let to = put_byte(text, at, b' ');
    put_number(text, to, n)
}

// One space and a mark's letter, as a further field of a line.
pub fn put_letter(text: &mut [u8], at: usize, b: u8) -> usize
    ensures { page result text.new ≡ added (ascii " " ++ (b ∷ [])) (page at text.old) }
{
    let to = put_byte(text, at, b' ');
    put_byte(text, to, b)
}

// A line with a word and numbers.
pub fn put_line(text: &mut [u8], at: usize, word: &[u8], numbers: &[u64]) -> usize
    ensures { page result text.new ≡ added (figure_line word.now numbers.now) (page at text.old) }
{
    let mut to = put(text, at, word);
    for n in numbers {
        to = put_field(text, to, *n);
    }
    put_byte(text, to, b'\n')
}

// So many spaces.
fn put_spaces(text: &mut [u8], at: usize, count: usize) -> usize
    ensures { page result text.new ≡ added (replicate count 32) (page at text.old) }
{
    let mut to = at;
    for _ in 0..count {
        to = put_byte(text, to, b' ');
    }
    to
}

// A number right-aligned in so many columns, with spaces before it.
pub fn put_aligned(text: &mut [u8], at: usize, width: usize, number: u64) -> usize
    ensures { page result text.new ≡ added (aligned width number) (page at text.old) }
{
    let rest = width.saturating_sub(1);
    if number < 10 {
        let to = put_spaces(text, at, rest);
        return put_byte(text, to, digit(number));
    }
    let to = put_aligned(text, at, rest, number / 10);
    put_byte(text, to, digit(number % 10))
}
