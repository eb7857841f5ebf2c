// The size and alignment of the definitions of a bundle, one kept answer for each.
#![tactic(auto)]

ghost use Rattle.std.specs.Prelude.{◌∷◌, [], ◌<◌};
ghost use Rattle.fixed_definitions.specs.Keeping.{Ready, Kept};

use bundle::Definitions;
use fixed::Extents;

// Keeps the extents of definition `i` and of those to which it leads, these first. `left` definitions may still be gone through, one
// inside another.
pub fn measure_definition(definitions: &Definitions<'_>, kept: &mut Extents, i: usize, left: usize)
    requires { (i < definitions.now.count) × Ready definitions.now.bytes.now left (i ∷ []) kept.old }
    ensures { Kept definitions.now.bytes.now (i ∷ []) kept.old kept.new }
{
    let places = definitions.places;
    let end = places[i + 1] as usize - 3;
    let mut at = places[i] as usize;
    while let Some((j, next)) = lookup::next_led(definitions, at, end) {
        if kept[j].is_none() {
            measure_definition(definitions, kept, j, left - 1);
        }
        at = next;
    }
    let m = fixed::measure_type(definitions, kept, places[i] as usize, bundle::DEPTH_LIMIT);
    kept[i] = Some(m.extent);
}
