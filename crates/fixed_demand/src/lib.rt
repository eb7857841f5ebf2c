// The call for a fixed size, with demand 1 as its contract: a demand that is not proved fails this crate.
#![tactic(auto)]

ghost use Rattle.fixed_demand.specs.Demand.{FixedDemand};

use offsets::Placement;
use refusal::Refusal;

// The size, alignment and field offsets of a definition.
pub fn fixed_size(bundle: &[u8], definition: usize, list: &mut [u32]) -> Result<Placement, Refusal>
    ensures { FixedDemand definition bundle.now list.old list.new result }
{
    offsets::fixed_size(bundle, definition, list)
}
