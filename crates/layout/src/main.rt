// Reads a bundle from standard input and writes what the program's arguments ask for to standard output: its report, the bundle with
// its names renumbered, a chain, also with the count of followed names, the size of a definition, or the value of an array's size; for a
// refused bundle 7E and the number of its refusal. Messages go to standard error, as when one of the two fails.
#![tactic(auto)]

ghost use Rattle.std.specs.Prelude.{◌≡◌, ◌≢◌, ◌≤◌, false, [], length, None, Some, IfSome, OnOk};
ghost use Rattle.std.specs.Io.KnownBytes.{Appends};
ghost use Rattle.layout.specs.Reading.{ReadInto, ReadAll, ReadFor};
ghost use Rattle.responses.specs.Response.{Holds, answer_to};
ghost use Rattle.layout.specs.Response.{output_of};
ghost use Rattle.words.specs.Running.{reads_bundle};
ghost use Rattle.words.specs.declared.Message.TheVariants.{Arguments, Unread};
ghost use Rattle.words.specs.declared.Order.TheVariants.{Help};

use std::env::{Env, FillError};
use std::io;
use std::io::{Read, Write};
use words::{Message, Order};

// Room for the longest bundle and one byte more.
fn input_buffer() -> [u8; bundle::BYTE_LIMIT + 1]
    ensures { 32769 ≡ length result }
{
    [0; bundle::BYTE_LIMIT + 1]
}

// An argument of at most as many bytes as there are places. One that is longer or missing counts as empty, which no word and
// no number is: with an `Option`, words::order_of would take three of them and begin each arm with `?`, for the same answer.
fn argument<'a>(rt: &impl Env, i: usize, buf: &'a mut [u8]) -> &'a [u8]
    ensures { length result.now ≤ length buf.old }
{
    match rt.arg(i, buf) {
        Ok(n) => &buf[..n],
        Err(_) => &[],
    }
}

// Whether there is an argument with this number.
fn is_given(rt: &impl Env, i: usize) -> bool {
    let mut places = [0u8; 1];
    !matches!(rt.arg(i, &mut places), Err(FillError::NotPresent))
}

// How many arguments there are, the program's own name among them, of the first five.
fn argument_count(rt: &impl Env) -> usize {
    1 + (1..5).take_while(|&i| is_given(rt, i)).count()
}

// What the program's arguments ask for, if there is such a thing. One of more than 4,096 bytes counts as empty.
fn asked(rt: &impl Env) -> Option<Order> {
    let mut first = [0u8; 4096];
    let mut second = [0u8; 4096];
    let mut third = [0u8; 4096];
    words::order_of(
        argument_count(rt),
        argument(rt, 1, &mut first),
        argument(rt, 2, &mut second),
        argument(rt, 3, &mut third),
    )
}

// Reads what an order is for: a bundle, or nothing. How many bytes the input gave, or none where a read failed.
fn read_for<R: Read>(input: &mut R, order: Order, buf: &mut [u8]) -> Option<usize>
    ensures into { ReadInto result buf.new }
    ensures reads { ReadFor (reads_bundle order) result buf.new (R.remaining input.old) (R.remaining input.new) }
    ensures unread { reads_bundle order ≡ false → input.new ≡ input.old }
{
    if words::reads_bundle(Some(order)) {
        return input::read_full(input, buf).ok();
    }
    Some(0)
}

// What goes to standard output, but for the text of help.
fn output(order: Order, read: Option<usize>, input: &[u8], out: &mut [u8]) -> usize
    requires read_into { ReadInto read input.now }
    requires in_bounds { 90154 ≤ length out.old }
    ensures { Holds (output_of order read input.now) out.new result }
{
    match read {
        Some(n) => responses::answer(Some(order), &input[..n], out),
        None => 0,
    }
}

// Writes the answer, or the text of help.
fn write<W: Write>(to: &mut W, order: Order, answer: &[u8]) -> io::Result<()>
    ensures all { order ≢ Help → OnOk result (Appends (W.contents to.old) (W.contents to.new) answer.now) }
    ensures none { order ≢ Help → answer.now ≡ [] → to.new ≡ to.old }
{
    if let Order::Help = order {
        return to.write_all(
            b"layout checks a bundle of definitions, read from standard input.\n  \
              layout                   its report\n  \
              layout renumber          the bundle with its names renumbered\n  \
              layout chain FROM TO     the names on the chain, one to a line\n  \
              layout followed FROM TO  the count of names whose edges were followed, then the chain\n  \
              layout size NUMBER       the size, alignment and field offsets of a definition\n  \
              layout value NUMBER      the value of the size of a definition that is an array\n  \
              layout help              this text, as with --help or -h\n\
              NUMBER, FROM and TO are decimal numbers from 0 to 65535.\n\
              A bundle that is refused gets two bytes: 7E and the number.\n",
        );
    }
    if answer.is_empty() {
        return Ok(());
    }
    to.write_all(answer)
}

// Reads, answers and writes. What is to be said on standard error, if something is.
fn run<R: Read, W: Write>(input: &mut R, to: &mut W, asked: Option<Order>) -> Option<Message>
    ensures answered { IfSome asked (λ order. result ≡ None → order ≢ Help → IfSome (R.remaining input.old) (λ bytes. Appends (W.contents to.old) (W.contents to.new) (answer_to order bytes))) }
    ensures unread { result ≡ Some Unread → to.new ≡ to.old }
    ensures arguments { result ≡ Some Arguments → asked ≡ None }
    ensures wrong { asked ≡ None → (result ≡ Some Arguments) × (input.new ≡ input.old) × (to.new ≡ to.old) }
{
    let Some(order) = asked else {
        return words::message_of(asked, Some(0), true);
    };
    let mut places = input_buffer();
    let read = read_for(input, order, &mut places);
    let mut out = [0; responses::ROOM];
    let size = output(order, read, &places, &mut out);
    let written = write(to, order, &out[..size]);
    words::message_of(Some(order), read, written.is_ok())
}

// Says it on standard error. Where that cannot be written, nothing is said.
fn say(rt: &impl Eprint, message: Message) {
    let _ = match message {
        Message::Arguments => rt.eprintln(
            "layout: wrong arguments; take none, renumber, chain FROM TO, followed FROM TO, size NUMBER, value NUMBER (each 0 to 65535) or help",
        ),
        Message::Unread => rt.eprintln("layout: standard input cannot be read"),
        Message::Unwritten => rt.eprintln("layout: standard output cannot be written"),
    };
}

fn main(rt: HostRuntime) {
    if let Some(message) = run(&mut rt.stdin(), &mut rt.stdout(), asked(&rt)) {
        say(&rt, message);
    }
}
