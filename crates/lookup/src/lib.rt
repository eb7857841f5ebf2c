// The first definition of a name in a bundle that was read, and those to which records lead.
#![tactic(auto)]

ghost use Rattle.bundle.specs.View.{FirstOf};
ghost use Rattle.bundle.specs.Definitions.{bundle_of};
ghost use Rattle.scan.specs.Scan.{Records};
ghost use Rattle.lookup.specs.Led.{NextLed};

use bundle::Definitions;
use scan::Walk;

// The number of the first definition of a name, if there is one.
pub fn definition_of(definitions: &Definitions<'_>, name: u16) -> Option<usize>
    ensures { FirstOf (bundle_of definitions.now.bytes.now) name result }
{
    let places = definitions.places;
    let names = places[bundle::NAMES_AT] as usize;
    let start = bundle::TABLE_AT;
    let r = table::place_of(&places[start..], 0, bundle::BUCKETS, names, name)?;
    Some(places[bundle::FIRSTS_AT + r] as usize)
}

// The first definition to which the records from `at` to `end` lead, with the end of the record that leads there, if they lead to one.
pub fn next_led(definitions: &Definitions<'_>, at: usize, end: usize) -> Option<(usize, usize)>
    requires { Records definitions.now.bytes.now at end }
    ensures { NextLed definitions.now.bytes.now at end result }
{
    let bytes = definitions.bytes;
    let mut from = at;
    while let Some(next) = scan::next_stop(bytes, from, end, Walk::Definitions) {
        if let Some(i) = definition_of(definitions, bundle::u16_at(bytes, next + 1)) {
            return Some((i, next + 3));
        }
        from = next + 3;
    }
    None
}
