// What the program writes to standard output for each order: a report, a renumbered bundle, a chain, also with the count of followed
// names, the size of a definition, or the value of an array's size; for a refused bundle 7E and the number of its refusal.
#![tactic(auto)]

ghost use Rattle.std.specs.Prelude.{[], ◌≤◌, length};
ghost use Rattle.meaning.specs.Due.{chaining};
ghost use Rattle.followed.specs.Followed.{following};
ghost use Rattle.fixed_meaning.specs.Fixed.{sizing, placing};
ghost use Rattle.fixed_meaning.specs.Valuing.{valuing};
ghost use Rattle.refusal.specs.Numbers.{number};
ghost use Rattle.responses.specs.Response.{refusal_bytes, numbers_of, lines_to, size_to, value_to, answer_to, answer_for, Holds, Gives};

use refusal::Refusal;
use words::Order;

// Room for a report or a renumbered bundle: a longer one is refused with 9.
const REPORT_ROOM: usize = 65536;

// Room for the offsets of a definition's fields, of which no bundle has so many.
const FIELD_ROOM: usize = 8192;

// Room for all that is written: for offsets, lines of 11 bytes behind two of 21.
pub const ROOM: usize = 98304;

// Puts 7E and the number of a refusal into the first places of `out`. Returns how many bytes that are.
fn put_refusal(refusal: Refusal, out: &mut [u8]) -> usize
    requires { 2 ≤ length out.old }
    ensures { Holds (refusal_bytes (number refusal)) out.new result }
{
    out[0] = 0x7E;
    out[1] = u8::from(refusal);
    2
}

// The names of the chain, each to a line. Returns how many bytes that are, as all functions below do, or the refusal.
fn respond_chain(bundle: &[u8], from: u16, to: u16, out: &mut [u8]) -> Result<usize, Refusal>
    requires { 6150 ≤ length out.old }
    ensures { Gives (lines_to [] (chaining from to bundle.now)) result out.new }
{
    let mut list = [0u16; bundle::CHAIN_LIMIT];
    let listed = find_chain::find_layout_dependency_chain(bundle, from, to, &mut list)?;
    Ok(decimal::write_numbers(&list[..listed.names], out, 0))
}

// The same behind the count of followed names.
fn respond_followed(bundle: &[u8], from: u16, to: u16, out: &mut [u8]) -> Result<usize, Refusal>
    requires { 6171 ≤ length out.old }
    ensures { Gives (lines_to (numbers_of (following from to bundle.now)) (chaining from to bundle.now)) result out.new }
{
    let mut list = [0u16; bundle::CHAIN_LIMIT];
    let listed = find_chain::find_layout_dependency_chain(bundle, from, to, &mut list)?;
    let first = decimal::put_line(out, 0, listed.followed as u64);
    Ok(decimal::write_numbers(&list[..listed.names], out, first))
}

// The size, the alignment and the offsets of a definition, each to a line.
fn respond_size(bundle: &[u8], definition: u16, out: &mut [u8]) -> Result<usize, Refusal>
    requires { 90154 ≤ length out.old }
    ensures { Gives (size_to (sizing definition bundle.now) (placing definition bundle.now) 8192) result out.new }
{
    let mut list = [0u32; FIELD_ROOM];
    let placement = offsets::fixed_size(bundle, usize::from(definition), &mut list)?;
    let second = decimal::put_line(out, 0, placement.size);
    let third = decimal::put_line(out, second, placement.alignment);
    Ok(decimal::write_numbers(&list[..placement.offsets], out, third))
}

// The value of the size of a definition, on a line.
fn respond_value(bundle: &[u8], definition: u16, out: &mut [u8]) -> Result<usize, Refusal>
    requires { 21 ≤ length out.old }
    ensures { Gives (value_to (valuing definition bundle.now)) result out.new }
{
    let value = size_value::size_value(bundle, usize::from(definition))?;
    Ok(decimal::put_signed(out, 0, value))
}

// What an order gets for a bundle.
fn respond(order: Order, bundle: &[u8], out: &mut [u8]) -> Result<usize, Refusal>
    requires { 90154 ≤ length out.old }
    ensures { Gives (answer_to order bundle.now) result out.new }
{
    match order {
        Order::Report => report::report(bundle, &mut out[..REPORT_ROOM]),
        Order::Renumber => renumber::renumber(bundle, &mut out[..REPORT_ROOM]),
        Order::Chain(from, to) => respond_chain(bundle, from, to, out),
        Order::Followed(from, to) => respond_followed(bundle, from, to, out),
        Order::Size(definition) => respond_size(bundle, definition, out),
        Order::Value(definition) => respond_value(bundle, definition, out),
        Order::Help => Ok(0),
    }
}

// The same, or the refusal, as bytes in the first places of `out`. Nothing where nothing was asked.
pub fn answer(order: Option<Order>, bundle: &[u8], out: &mut [u8]) -> usize
    requires { 90154 ≤ length out.old }
    ensures { Holds (answer_for order bundle.now) out.new result }
{
    let Some(order) = order else {
        return 0;
    };
    match respond(order, bundle, out) {
        Ok(n) => n,
        Err(refusal) => put_refusal(refusal, out),
    }
}
