// Stored answers: whether an answer is the one in a list of bytes.
#![tactic(auto)]

ghost use Rattle.std.specs.Prelude.{◌≡◌, ◌≤◌, ◌++◌, length, map};
ghost use Rattle.stored.specs.Examples.{Examples};
ghost use Rattle.stored.specs.Stored.{Whether, Cut, number_bytes, numbers_bytes, layout_bytes, chain_bytes, bits_of, refusal_bytes, IsDue};

use number::Number;

// Whether the bytes are 7E and the number of this refusal. The number is any byte: what is stored may have one that no refusal has.
pub fn is_refusal(number: u8, due: &[u8]) -> bool
    ensures { Whether result (due.now ≡ refusal_bytes number) }
{
    due == [0x7E, number].as_slice()
}

// Whether the answer is the one in the bytes: the result in the first places of `out`, or 7E and the number of the refusal.
pub fn is_due(answer: Result<usize, u8>, out: &[u8], due: &[u8]) -> bool
    ensures { Whether result (IsDue answer out.now due.now) }
{
    match answer {
        Ok(size) => match out.get(..size) {
            Some(bytes) => bytes == due,
            None => false,
        },
        Err(number) => is_refusal(number, due),
    }
}

// Whether the bytes are those of the numbers, one after another, low byte first.
pub fn numbers_are<N: Number>(list: &[N], due: &[u8]) -> bool
    requires { N.BYTES ≤ 8 }
    ensures { Whether result (due.now ≡ numbers_bytes N.BYTES (map N.value list.now)) }
{
    let mut rest = due;
    for number in list {
        let Some(after) = rest.strip_prefix(&number.wide().to_le_bytes()[..N::BYTES]) else {
            return false;
        };
        rest = after;
    }
    rest.is_empty()
}

// Whether the bytes are those of a number of 64 bits and of the numbers behind it.
fn headed<N: Number>(head: u64, numbers: &[N], due: &[u8]) -> bool
    requires { N.BYTES ≤ 8 }
    ensures { Whether result (due.now ≡ number_bytes 8 head ++ numbers_bytes N.BYTES (map N.value numbers.now)) }
{
    let Some(rest) = due.strip_prefix(&head.to_le_bytes()) else {
        return false;
    };
    numbers_are(numbers, rest)
}

// Whether the bytes are those of size, alignment and offsets.
pub fn layout_is(size: u64, alignment: u64, offsets: &[u32], due: &[u8]) -> bool
    ensures { Whether result (due.now ≡ layout_bytes size alignment offsets.now) }
{
    let Some(rest) = due.strip_prefix(&size.to_le_bytes()) else {
        return false;
    };
    headed(alignment, offsets, rest)
}

// Whether the bytes are those of the count of followed names and of the names of a chain.
pub fn chain_is(followed: u64, names: &[u16], due: &[u8]) -> bool
    ensures { Whether result (due.now ≡ chain_bytes followed names.now) }
{
    headed(followed, names, due)
}

// Whether the bytes are those of the value, eight of them.
pub fn value_is(value: i64, due: &[u8]) -> bool
    ensures { Whether result (due.now ≡ number_bytes 8 (bits_of value)) }
{
    due == value.cast_unsigned().to_le_bytes().as_slice()
}

// What is due in the first m bytes of a longer list is due in the part that is cut off there.
pub fn cut()
    ensures { Cut }
{}

// Numbers, values and a layout in bytes.
pub fn examples()
    ensures { Examples }
{}
