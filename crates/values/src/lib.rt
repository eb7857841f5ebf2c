// The arithmetic of size expressions: exact whole numbers within signed 64 bits.
#![tactic(auto)]

ghost use Rattle.std.specs.Prelude.{◌≡◌, ◌<ℤ◌, pos, nat_abs, ◌+ℤ◌, ◌-ℤ◌, ◌*ℤ◌};
ghost use Rattle.std.specs.Int.Signed.{quot_z, rem_z};
ghost use Rattle.fixed_meaning.specs.Value.{valued, ranged, complement, literal_value, divided, operated};
ghost use Rattle.values.specs.Meant.{value_meant, literal_kind, operation_kind, IsLiteralOf, IsOperationOf};

use refusal::Refusal;

// n
fn plus(n: u64) -> Result<i64, Refusal>
    ensures { value_meant result ≡ ranged (pos n) }
{
    i64::try_from(n).or(Err(Refusal::OutOfRange))
}

// What n stands for in two's complement, where the numbers from the distance of `least` on are negative.
fn complement_of(least: i64, n: u64) -> Result<i64, Refusal>
    requires { least <ℤ pos 0 }
    ensures { value_meant result ≡ ranged (complement (nat_abs least) n) }
{
    let limit = least.unsigned_abs();
    if n < limit {
        return plus(n);
    }
    least
        .checked_add_unsigned(n - limit)
        .ok_or(Refusal::OutOfRange)
}

// How the bits of a literal are read.
#[derive(Clone, Copy)]
pub enum Literal {
    Unsigned,
    Signed64,
    Signed32,
    Signed16,
    Signed8,
}

// How a literal of this kind is read: up to kind 4 as unsigned, above 8 not at all.
pub fn literal_of(kind: u8) -> Option<Literal>
    ensures { IsLiteralOf kind result }
{
    match kind {
        0..=4 => Some(Literal::Unsigned),
        5 => Some(Literal::Signed64),
        6 => Some(Literal::Signed32),
        7 => Some(Literal::Signed16),
        8 => Some(Literal::Signed8),
        _ => None,
    }
}

// The value of a literal, read in this way.
pub fn read_literal(literal: Literal, n: u64) -> Result<i64, Refusal>
    ensures { value_meant result ≡ literal_value (literal_kind literal) n }
{
    match literal {
        Literal::Unsigned => plus(n),
        Literal::Signed64 => complement_of(i64::MIN, n),
        Literal::Signed32 => complement_of(i64::from(i32::MIN), n),
        Literal::Signed16 => complement_of(i64::from(i16::MIN), n),
        Literal::Signed8 => complement_of(i64::from(i8::MIN), n),
    }
}

// The value of a literal of this kind, which may be any byte: one that is not read is refused.
pub fn literal_value(kind: u8, n: u64) -> Result<i64, Refusal>
    ensures { value_meant result ≡ literal_value kind n }
{
    let literal = literal_of(kind).ok_or(Refusal::NotCovered)?;
    read_literal(literal, n)
}

fn divide(l: i64, r: i64) -> Result<i64, Refusal>
    ensures { value_meant result ≡ divided quot_z l r }
{
    if r == 0 {
        return Err(Refusal::ZeroDivisor);
    }
    l.checked_div(r).ok_or(Refusal::OutOfRange)
}

// A quotient that is out of range has the remainder 0.
fn remainder(l: i64, r: i64) -> Result<i64, Refusal>
    ensures { value_meant result ≡ divided rem_z l r }
{
    if r == 0 {
        return Err(Refusal::ZeroDivisor);
    }
    Ok(l.wrapping_rem(r))
}

// The operations that are covered.
#[derive(Clone, Copy)]
pub enum Operation {
    Add,
    Subtract,
    Multiply,
    Divide,
    Remainder,
    Equal,
    Unequal,
    Less,
    Greater,
    AtMost,
    AtLeast,
}

// The operation of a kind, where it is covered.
pub fn operation_of(kind: u8) -> Option<Operation>
    ensures { IsOperationOf kind result }
{
    match kind {
        0x10 => Some(Operation::Add),
        0x11 => Some(Operation::Subtract),
        0x12 => Some(Operation::Multiply),
        0x13 => Some(Operation::Divide),
        0x14 => Some(Operation::Remainder),
        0x1B => Some(Operation::Equal),
        0x1C => Some(Operation::Unequal),
        0x1D => Some(Operation::Less),
        0x1E => Some(Operation::Greater),
        0x1F => Some(Operation::AtMost),
        0x20 => Some(Operation::AtLeast),
        _ => None,
    }
}

// What an operation makes of two values.
pub fn apply(operation: Operation, l: i64, r: i64) -> Result<i64, Refusal>
    ensures { value_meant result ≡ operated (operation_kind operation) (valued l) (valued r) }
{
    match operation {
        Operation::Add => l.checked_add(r).ok_or(Refusal::OutOfRange),
        Operation::Subtract => l.checked_sub(r).ok_or(Refusal::OutOfRange),
        Operation::Multiply => l.checked_mul(r).ok_or(Refusal::OutOfRange),
        Operation::Divide => divide(l, r),
        Operation::Remainder => remainder(l, r),
        Operation::Equal => Ok(i64::from(l == r)),
        Operation::Unequal => Ok(i64::from(l != r)),
        Operation::Less => Ok(i64::from(l < r)),
        Operation::Greater => Ok(i64::from(l > r)),
        Operation::AtMost => Ok(i64::from(l <= r)),
        Operation::AtLeast => Ok(i64::from(l >= r)),
    }
}

// The value of a binary expression of this kind, by the values of its sides: of any byte, since a kind that is not covered is refused.
pub fn operate(kind: u8, l: i64, r: i64) -> Result<i64, Refusal>
    ensures { value_meant result ≡ operated kind (valued l) (valued r) }
{
    let operation = operation_of(kind).ok_or(Refusal::NotCovered)?;
    apply(operation, l, r)
}
