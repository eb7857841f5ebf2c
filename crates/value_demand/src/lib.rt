// The call for the value of a size, with demand 1 as its contract: a demand that is not proved fails this crate.
#![tactic(auto)]

ghost use Rattle.value_demand.specs.Demand.{ValueDemand};

use refusal::Refusal;

// The value of the size of a definition that is an array.
pub fn size_value(bundle: &[u8], definition: usize) -> Result<i64, Refusal>
    ensures { ValueDemand definition bundle.now result }
{
    size_value::size_value(bundle, definition)
}
