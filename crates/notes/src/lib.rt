// What is noted of a bundle: the references of its definitions, each with the field to which it leads, behind the notes of the fields.
// A list has for each reference the name of the type that it means, one more than the index of the field, and where it is written.
// It is no array of structs: lists stand in the lent places of 16 bits (no heap, fixed memory).
#![tactic(auto)]

ghost use Rattle.std.specs.Prelude.{◌≡◌, IfSome, ◌+◌, ◌*◌, ◌≤◌, ◌<◌, length};
ghost use Rattle.meaning.specs.Limits.{size_limit};
ghost use Rattle.meaning.specs.ReadType.{read_ty};
ghost use Rattle.bundle.specs.View.{Reads};
ghost use Rattle.bundle.specs.Definitions.{type_at, bundle_of, Table};
ghost use Rattle.bundle.specs.Opened.{LayoutOf};
ghost use Rattle.table.specs.Table.{Within};
ghost use Rattle.sizes.specs.Paths.{Fit};
ghost use Rattle.sizes.specs.Scan.{references_from, Fits};
ghost use Rattle.field_index.specs.Noted.{parts_at, references_of, ConstantsNoted, FieldsNoted, FieldsBelow, NotedBelow};
ghost use Rattle.checks.specs.Checks.{target_at, type_part};
ghost use Rattle.notes.specs.Notes.{needs_references, needed_of, index_for, listed, Entry, Lists, Noted};
ghost use Rattle.notes.specs.Listing.{RoomFor};
ghost use Rattle.notes.specs.Facts.{Noted-prop};

use bundle::{Definitions, Layout, Opened};
use fields::Shape;

// An opened bundle, with what is noted of it behind the places of its definitions.
#[derive(Clone, Copy)]
pub struct Notes<'a> {
    pub opened: Opened<'a>,
    pub ghost noted: { Noted opened.definitions.bytes.now opened.definitions.places.now opened.definitions.count } by { Noted-prop opened.definitions.bytes.now opened.definitions.places.now opened.definitions.count },
}

// Functions that list have the facts of the places in their clauses, as those of crate field_index that note.

// Whether the type that was read at `at` needs the references in it for its layout: all or none of them.
fn needs_references(s: &[u8], at: usize) -> bool
    requires { Reads (read_ty 24 s.now at) × (length s.now ≤ size_limit) }
    ensures { result ≡ needs_references (type_at 24 s.now at) }
{
    match fields::shape_at(s, at, bundle::DEPTH_LIMIT) {
        Shape::Enum => { !sizes::is_enum_with_constant_size_variants(s, at, bundle::DEPTH_LIMIT) }
        Shape::Array => !sizes::is_constant(s, at + 11, bundle::DEPTH_INSIDE),
        _ => true,
    }
}

// The index of the first field that is the field part of the reference at `path`, in the first definition of the name `container`, if that
// is a struct with one.
fn index_for(definitions: &Definitions<'_>, path: usize, container: u16) -> Option<u16>
    requires { Fit definitions.now.bytes.now path × (container ≡ type_part definitions.now.bytes.now path) × FieldsNoted definitions.now.bytes.now definitions.now.places.now definitions.now.count }
    ensures { (listed result ≡ index_for (bundle_of definitions.now.bytes.now) (target_at definitions.now.bytes.now path)) × IfSome result (λ k. k < 65535) }
{
    let field = checks::field_part(definitions.bytes, path)?;
    let i = lookup::definition_of(definitions, container)?;
    let indices = field_index::indices_of(definitions.places, i, field)?;
    Some(indices.first)
}

// How an index is listed: as a number, since its place has 16 bits.
fn listed(index: Option<u16>) -> u16
    requires { IfSome index (λ k. k < 65535) }
    ensures { result ≡ listed index }
{
    index.map_or(0, |k| k + 1)
}

// Lists the reference at `path` in the three places at `used`.
fn put_entry(s: &[u8], places: &mut [u16], layout: Layout, path: usize, used: usize)
    requires { LayoutOf s.now layout places.old × FieldsBelow s.now places.old layout.definitions used × Fit s.now path × RoomFor places.old used 1 }
    ensures { Entry s.now places.new used path × Within used (used + 3) places.old places.new }
{
    let target = sizes::parse_field_reference(s, path, layout.current);
    let definitions = Definitions {
        bytes: s,
        places: &*places,
        count: layout.definitions,
    };
    let index = index_for(&definitions, path, target.name);
    places[used] = target.name;
    places[used + 1] = listed(index);
    places[used + 2] = path as u16;
}

// Lists the references from `at` to `end`, from the place `used` on. Returns where the list ends.
fn list_from(
    s: &[u8],
    places: &mut [u16],
    layout: Layout,
    at: usize,
    end: usize,
    used: usize,
) -> usize
    requires { LayoutOf s.now layout places.old × FieldsBelow s.now places.old layout.definitions used × (end ≤ length s.now) × Fits s.now (references_from s.now at end) × RoomFor places.old used (length (references_from s.now at end)) }
    ensures { Lists s.now places.new result used (references_from s.now at end) × Within used result places.old places.new }
{
    let mut next = at;
    let mut to = used;
    while let Some((p, after)) = checks::reference_at(s, next, end) {
        put_entry(s, places, layout, p, to);
        next = after;
        to += 3;
    }
    to
}

// Lists the references of definition `i`, where it needs them, from the place `used` on. Returns where the list ends.
fn list_definition(s: &[u8], places: &mut [u16], layout: Layout, i: usize, used: usize) -> usize
    requires { LayoutOf s.now layout places.old × FieldsBelow s.now places.old layout.definitions used × (i < layout.definitions) × RoomFor places.old used (length (references_of s.now places.old i)) }
    ensures { Lists s.now places.new result used (needed_of s.now places.old i) × Within used result places.old places.new }
{
    let definitions = Definitions {
        bytes: s,
        places: &*places,
        count: layout.definitions,
    };
    let at = fields::place_of(&definitions, i).at;
    if !needs_references(s, at) {
        return used;
    }
    let end = fields::end_of(&definitions, i);
    list_from(s, places, layout, at, end, used)
}

// Lists the references that each definition needs, behind the notes of the fields, which end at `used`.
fn list_references(s: &[u8], places: &mut [u16], layout: Layout, used: usize)
    requires { LayoutOf s.now layout places.old × NotedBelow s.now places.old layout.definitions used × ConstantsNoted s.now places.old layout.definitions }
    ensures { LayoutOf s.now layout places.new × Noted s.now places.new layout.definitions }
{
    places[field_index::LISTS_AT] = used as u16;
    let mut to = used;
    for i in 0..layout.definitions {
        to = list_definition(s, places, layout, i, to);
        places[field_index::LISTS_AT + (i + 1)] = to as u16;
    }
}

// Notes which definitions are enums with variants of constant size, the fields of every struct and the references that each definition
// needs. What stands behind the places of the definitions before is free.
pub fn note(s: &[u8], places: &mut [u16], layout: Layout)
    requires { LayoutOf s.now layout places.old × (2 * parts_at + 3 * length s.now + 9 ≤ 2 * length places.old) }
    ensures { LayoutOf s.now layout places.new × Noted s.now places.new layout.definitions }
{
    field_index::note_constants(s, places, layout.definitions);
    let used = field_index::note_structs(s, places, layout.definitions);
    list_references(s, places, layout, used);
}

// The same, and the bundle with what is noted of it, as long as the places are lent.
pub fn notes_of<'a>(s: &'a [u8], places: &'a mut [u16], layout: Layout) -> Notes<'a>
    requires { LayoutOf s.now layout places.old × (2 * parts_at + 3 * length s.now + 9 ≤ 2 * length places.old) }
    ensures { (result.opened.definitions.bytes.now ≡ s.now) × (result.opened.layout ≡ layout) }
{
    note(s, places, layout);
    let definitions = Definitions {
        bytes: s,
        places: &*places,
        count: layout.definitions,
    };
    Notes {
        opened: Opened {
            definitions,
            layout,
        },
    }
}
