// The calls, with the three demands as their contracts: a demand that is not proved fails this crate.
#![tactic(auto)]

ghost use Rattle.std.specs.Prelude.{[]};
ghost use Rattle.bundle.specs.Opened.{answer_meant};
ghost use Rattle.search_from.specs.Listing as listing;
ghost use Rattle.demanded.specs.Followed.{FollowedGiven};
ghost use Rattle.demands.specs.Demands.{Demand1, Nothing, ReportOf, RenumberedOf, ChainOf, Demand3Alike, Demand3Report};

use refusal::Refusal;
use search_from::Listed;

// Whether the bytes are accepted.
pub fn accept(bundle: &[u8]) -> Result<usize, Refusal>
    ensures { Demand1 Nothing bundle.now [] [] (answer_meant result) }
{
    acceptance::accept(bundle)
}

// The report.
pub fn report(bundle: &[u8], out: &mut [u8]) -> Result<usize, Refusal>
    ensures { Demand1 ReportOf bundle.now out.old out.new (answer_meant result) }
{
    report::report(bundle, out)
}

// The bundle with its names renumbered.
pub fn renumber(bundle: &[u8], out: &mut [u8]) -> Result<usize, Refusal>
    ensures { Demand1 RenumberedOf bundle.now out.old out.new (answer_meant result) }
{
    renumber::renumber(bundle, out)
}

// The chain from one name to another, and the count of the names whose edges the search followed.
pub fn find_layout_dependency_chain(
    bundle: &[u8],
    from: u16,
    to: u16,
    list: &mut [u16],
) -> Result<Listed, Refusal>
    ensures demand1 { Demand1 (ChainOf from to) bundle.now list.old list.new (listing.answer_meant result) }
    ensures followed_given { FollowedGiven from to bundle.now result }
{
    find_chain::find_layout_dependency_chain(bundle, from, to, list)
}

// The answers of two calls.
#[derive(Clone, Copy)]
pub struct Answers {
    pub first: Result<usize, Refusal>,
    pub second: Result<usize, Refusal>,
}

// Two bundles with their names renumbered.
pub fn renumber_two(one: &[u8], another: &[u8], out: &mut [u8], beside: &mut [u8]) -> Answers
    ensures { Demand3Alike one.now another.now
        out.old out.new (answer_meant result.first)
        beside.old beside.new (answer_meant result.second) }
{
    let first = renumber::renumber(one, out);
    let second = renumber::renumber(another, beside);
    Answers { first, second }
}

// The bundle with its names renumbered, into the first places of `bytes`, and the report of that, into the first places of `out`.
pub fn report_renumbered(bundle: &[u8], bytes: &mut [u8], out: &mut [u8]) -> Answers
    ensures { Demand3Report bundle.now bytes.old bytes.new (answer_meant result.first)
        out.old out.new (answer_meant result.second) }
{
    let first = renumber::renumber(bundle, bytes);
    match first {
        Ok(n) => {
            let second = report::report(&bytes[..n], out);
            Answers { first, second }
        }
        Err(refusal) => Answers {
            first,
            second: Err(refusal),
        },
    }
}
