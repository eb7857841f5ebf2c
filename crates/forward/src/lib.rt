// The check of one field of a struct: type 4, under the names of the original.
#![tactic(auto)]

ghost use Rattle.std.specs.Prelude.{◌≡◌, cond, IfSome, ℕ, ◌+◌, ◌*◌, ◌≤◌, ◌<◌, ltb, length, get_or};
ghost use Rattle.meaning.specs.Tree.{member};
ghost use Rattle.meaning.specs.ReadType.{read_ty};
ghost use Rattle.meaning.specs.Violations.{check_field_layout_dependency};
ghost use Rattle.bundle.specs.View.{Reads};
ghost use Rattle.bundle.specs.Definitions.{type_at, bundle_of};
ghost use Rattle.checks.specs.Checks.{Checked};
ghost use Rattle.notes.specs.Parts.{bytes_of, places_of};
ghost use Rattle.forward.specs.Forward.{ForwardIn, is_later_at, later_from, Seen};

use checks::Finding;
use fields::{Field, Shape};
use notes::Notes;

// Whether the reference that is listed at `next` leads to a field behind index `j` of the struct.
fn is_later_field(places: &[u16], name: u16, j: usize, next: usize) -> bool
    requires { next + 1 < length places.now }
    ensures { result ≡ is_later_at places.now name j next }
{
    places[next] == name && j.saturating_add(1) < usize::from(places[next + 1])
}

// Where the first such reference is listed from `from` on, if there is one before `end`.
fn find_later_field(places: &[u16], name: u16, j: usize, from: usize, end: usize) -> Option<usize>
    requires { ((k : ℕ) × (from + 3 * k ≡ end)) × (end ≤ length places.now) }
    ensures { ((k : ℕ) → from + 3 * k ≡ end → result ≡ later_from places.now name j k from) × IfSome result (λ at. at + 3 ≤ end) }
{
    for k in 0..(end - from) / 3 {
        let next = from + 3 * k;
        if is_later_field(places, name, j, next) {
            return Some(next);
        }
    }
    None
}

// The first such reference in the whole of definition `i`. Since what leads behind an index leads behind those before it too, the
// search goes on where it stopped for the fields before: `seen` has that place in the list for each definition, if a search was made.
fn find_forward(
    notes: &Notes<'_>,
    seen: &mut [Option<u16>; bundle::DEFINITIONS],
    name: u16,
    j: usize,
    i: usize,
) -> Option<usize>
    requires { (i < notes.now.opened.definitions.count) × Seen (bytes_of notes.now) (places_of notes.now) name j seen.old }
    ensures { ForwardIn (bytes_of notes.now) name j (type_at 24 (bytes_of notes.now) (get_or (places_of notes.now) i 0)) result × Seen (bytes_of notes.now) (places_of notes.now) name j seen.new }
{
    let places = notes.opened.definitions.places;
    let end = places[field_index::LISTS_AT + (i + 1)] as usize;
    let from = seen[i].unwrap_or(places[field_index::LISTS_AT + i]) as usize;
    let found = find_later_field(places, name, j, from, end);
    seen[i] = Some(found.unwrap_or(end) as u16);
    let at = found?;
    Some(places[at + 2] as usize)
}

// Type 4, for the field at index `j` of the struct: the first reference to a later field in the definition to which the field's
// type, a TypeRef, leads. `seen` has for each definition where in its list the search for the fields before stopped.
pub fn check_field_layout_dependency(
    notes: &Notes<'_>,
    seen: &mut [Option<u16>; bundle::DEFINITIONS],
    name: u16,
    j: usize,
    field: Field,
    list: &mut [u16],
) -> Option<Finding>
    requires seen { Seen (bytes_of notes.now) (places_of notes.now) name j seen.old }
    requires reads { Reads (read_ty 23 (bytes_of notes.now) field.at) × (3 ≤ length list.old) }
    ensures { ((v : ℕ) → Checked (bytes_of notes.now) name list.new result (λ i. check_field_layout_dependency (bundle_of (bytes_of notes.now)) i name (j, member field.name v (type_at 23 (bytes_of notes.now) field.at)))) × Seen (bytes_of notes.now) (places_of notes.now) name j seen.new }
{
    let s = notes.opened.definitions.bytes;
    let Shape::TypeRef(n) = fields::shape_at(s, field.at, bundle::DEPTH_INSIDE) else {
        return None;
    };
    let i = lookup::definition_of(&notes.opened.definitions, n)?;
    let p = find_forward(notes, seen, name, j, i)?;
    let later = checks::field_part(s, p)?;
    checks::set_chain(list, name, field.name, later);
    Some(Finding::FieldForward(p))
}
