// Numbers as decimal text: written to lines, and names read from a word.
#![tactic(auto)]

ghost use Rattle.std.specs.Prelude.{[], ◌∷◌, ◌+◌, ◌*◌, ◌≤◌, ◌<◌, length, map};
ghost use Rattle.decimal.specs.Decimal.{decimal, lines, signed_line, Writes};
ghost use Rattle.decimal.specs.Parsing.{IsParsed};
ghost use Rattle.decimal.specs.Texts.{Texts};

use number::Number;

// Writes the decimal text of a number. Returns the place behind it, as all functions here that write do.
// By hand, as put_line and put_signed: `write!` into a slice promises nothing of the bytes, so it would take a writer of our own, a struct
// with its `write_str` and laws.
// `out` and `at` stay two parameters: a cursor would keep `out` lent, while callers, who go on in `out`, need what `Writes` says.
fn put_decimal(out: &mut [u8], at: usize, n: u64) -> usize
    requires { at + length (decimal n) ≤ length out.old }
    ensures { Writes (decimal n) out.old at out.new result }
{
    if n < 10 {
        out[at] = b'0' + n as u8;
        return at + 1;
    }
    let next = put_decimal(out, at, n / 10);
    out[next] = b'0' + (n % 10) as u8;
    next + 1
}

// Writes the decimal text of a number and a line feed.
pub fn put_line(out: &mut [u8], at: usize, n: u64) -> usize
    requires { at + length (lines (n ∷ [])) ≤ length out.old }
    ensures { Writes (lines (n ∷ [])) out.old at out.new result }
{
    let next = put_decimal(out, at, n);
    out[next] = b'\n';
    next + 1
}

// Writes the decimal text of a number that may be negative, and a line feed.
pub fn put_signed(out: &mut [u8], at: usize, n: i64) -> usize
    requires { at + length (signed_line n) ≤ length out.old }
    ensures { Writes (signed_line n) out.old at out.new result }
{
    let distance = n.unsigned_abs();
    if 0 <= n {
        return put_line(out, at, distance);
    }
    out[at] = b'-';
    put_line(out, at + 1, distance)
}

// Writes the numbers of a list, each to a line.
pub fn write_numbers<T: Number>(list: &[T], out: &mut [u8], start: usize) -> usize
    requires { start + (T.digits + 1) * length list.now ≤ length out.old }
    ensures { Writes (lines (map T.value list.now)) out.old start out.new result }
{
    let mut at = start;
    for &number in list {
        at = put_line(out, at, number.wide());
    }
    at
}

// The name that a word says, if it says one. The library also takes a plus in front.
pub fn parse_name(word: &[u8]) -> Option<u16>
    ensures { IsParsed word.now result }
{
    if word.starts_with(b"+") {
        return None;
    }
    let Ok(text) = str::from_utf8(word) else {
        return None;
    };
    text.parse().ok()
}

// The text of a name says the name, without a leading zero.
#[tactic(auto, using(crate::proofs::Examples::computed))]
pub fn texts()
    ensures { Texts }
{}
