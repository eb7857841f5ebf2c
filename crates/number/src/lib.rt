// Numbers that are not negative, of the widths that lists of them have.
#![tactic(auto)]

ghost use Rattle.std.specs.Prelude.{ℕ, ◌≡◌, ◌<◌, ◌^◌};

// A number that is not negative, of a fixed width.
pub trait Number: Copy {
    // The number.
    ghost value: { Self → ℕ };

    // How many bytes it has.
    ghost BYTES: { ℕ };

    const BYTES: usize;

    // How many decimal digits it has at most.
    ghost digits: { ℕ };

    // The same number in 64 bits.
    fn wide(self) -> u64
        ensures same { result ≡ value self }
        ensures fits { (0 < digits) × (result < 10 ^ digits) };
}

impl Number for u16 {
    ghost value = { λ n. n };

    ghost BYTES = { 2 };

    const BYTES: usize = 2;

    ghost digits = { 5 };

    fn wide(self) -> u64 {
        u64::from(self)
    }
}

impl Number for u32 {
    ghost value = { λ n. n };

    ghost BYTES = { 4 };

    const BYTES: usize = 4;

    ghost digits = { 10 };

    fn wide(self) -> u64 {
        u64::from(self)
    }
}
