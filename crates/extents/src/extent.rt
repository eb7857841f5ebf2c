// Sizes and alignments within their bounds.

ghost use Rattle.std.specs.Prelude.{◌*◌, ◌≤◌, ◌<◌};
ghost use Rattle.fixed_meaning.specs.Extent.{largest};

// Size and alignment of a part.
#[derive(Clone, Copy)]
pub struct Extent {
    pub size: u64,
    pub alignment: u64,
    pub ghost size_fits: { size ≤ largest },
    pub ghost alignment_fits: { (0 < alignment) × (alignment ≤ 9223372036854775808) },
}

// Members that are still to be closed: where they end, which is at most the last offset and a size, and their largest alignment.
#[derive(Clone, Copy)]
pub struct Members {
    pub end: u64,
    pub alignment: u64,
    pub ghost end_fits: { end ≤ 2 * largest },
    pub ghost alignment_fits: { (0 < alignment) × (alignment ≤ 9223372036854775808) },
}

// No members yet.
pub const NONE: Members = Members {
    end: 0,
    alignment: 1,
};
