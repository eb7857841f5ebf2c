// The calls for C and Rust. A call answers 0 where it is accepted, and else the number of the refusal. The length of a result goes
// to `written`, which a refusal leaves as it was.
#![tactic(auto)]

ghost use Rattle.std.specs.Prelude.{◌≡◌};
ghost use Rattle.meaning.specs.Due.{reporting, renumbering, chaining};
ghost use Rattle.bundle.specs.Opened.{answer_meant};
ghost use Rattle.layout_c.specs.Convention.{code_of, written_after, CallInC, AcceptInC, FollowedInC, FixedInC, ValueInC};

use refusal::Refusal;

// Gives the length of a result, which a refusal leaves as it was. Returns the number for the answer.
fn give(answer: Result<usize, Refusal>, written: &mut usize) -> u8
    ensures length_out { written.new ≡ written_after (answer_meant answer) written.old }
    ensures code { result ≡ code_of (answer_meant answer) }
{
    match answer {
        Ok(n) => {
            *written = n;
            0
        }
        Err(refusal) => u8::from(refusal),
    }
}

// Whether the bytes are accepted.
#[unsafe(no_mangle)]
pub extern "C" fn layout_accept(bundle: &[u8]) -> u8
    ensures { AcceptInC bundle.now result }
{
    give(acceptance::accept(bundle), &mut 0)
}

// The report, into the first places of `out`.
#[unsafe(no_mangle)]
pub extern "C" fn layout_report(bundle: &[u8], out: &mut [u8], written: &mut usize) -> u8
    ensures { CallInC (reporting bundle.now) out.old out.new written.old written.new result }
{
    give(report::report(bundle, out), written)
}

// The bundle with its names renumbered, into the first places of `out`.
#[unsafe(no_mangle)]
pub extern "C" fn layout_renumber(bundle: &[u8], out: &mut [u8], written: &mut usize) -> u8
    ensures { CallInC (renumbering bundle.now) out.old out.new written.old written.new result }
{
    give(renumber::renumber(bundle, out), written)
}

// The chain from one name to another, into the first places of `list`.
#[unsafe(no_mangle)]
pub extern "C" fn layout_chain(
    bundle: &[u8],
    from: u16,
    to: u16,
    list: &mut [u16],
    written: &mut usize,
) -> u8
    ensures { CallInC (chaining from to bundle.now) list.old list.new written.old written.new result }
{
    layout_chain_followed(bundle, from, to, list, written, &mut 0)
}

// The same, with the count of the names whose edges the search followed. Here and below the answer is taken apart in place: each writes
// other places, and a closure that `give` took for that would have the lines of the arm.
#[unsafe(no_mangle)]
pub extern "C" fn layout_chain_followed(
    bundle: &[u8],
    from: u16,
    to: u16,
    list: &mut [u16],
    written: &mut usize,
    followed: &mut usize,
) -> u8
    ensures { FollowedInC from to bundle.now list.old list.new written.old written.new
        followed.old followed.new result }
{
    match find_chain::find_layout_dependency_chain(bundle, from, to, list) {
        Ok(listed) => {
            *written = listed.names;
            *followed = listed.followed;
            0
        }
        Err(refusal) => u8::from(refusal),
    }
}

// The size and alignment of a definition that never varies, and the offsets of its fields, into the first places of `list`.
#[unsafe(no_mangle)]
pub extern "C" fn layout_fixed_size(
    bundle: &[u8],
    definition: usize,
    list: &mut [u32],
    size: &mut u64,
    alignment: &mut u64,
    written: &mut usize,
) -> u8
    ensures { FixedInC definition bundle.now list.old list.new size.old size.new
        alignment.old alignment.new written.old written.new result }
{
    match offsets::fixed_size(bundle, definition, list) {
        Ok(placement) => {
            *size = placement.size;
            *alignment = placement.alignment;
            *written = placement.offsets;
            0
        }
        Err(refusal) => u8::from(refusal),
    }
}

// The value of the size of a definition that is an array.
#[unsafe(no_mangle)]
pub extern "C" fn layout_size_value(bundle: &[u8], definition: usize, value: &mut i64) -> u8
    ensures { ValueInC definition bundle.now value.old value.new result }
{
    match size_value::size_value(bundle, definition) {
        Ok(z) => {
            *value = z;
            0
        }
        Err(refusal) => u8::from(refusal),
    }
}
