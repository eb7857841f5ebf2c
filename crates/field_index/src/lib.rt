// The fields of every struct by their names: noted once for a bundle, behind the places of its definitions, and then looked up.
// Behind those places stands for each definition whether it is an enum with variants of constant size; then for each where its part starts,
// and 0 where it is no struct or has no field; then come the places where the lists of references start (crate notes), and then the parts.
// A part has the count of fields and the count of their names, then for each name the index of the first field that has it, then for each
// the index of the last, then a tree of the names, then for each field where its type leads. All of it is numbers of 16 bits in the one
// lent array, 0 where there is none: no heap, fixed memory.
//
// What is noted is written behind the places of the definitions: a struct that has them and their fact would be made anew after each write,
// so functions that note have the fact in their clauses, and make `Definitions` for a look-up alone.
#![tactic(auto)]

ghost use Rattle.std.specs.Prelude.{◌≡◌, IfSome, List, ◌+◌, ◌*◌, ◌≤◌, ◌<◌, length, get_or};
ghost use Rattle.meaning.specs.Lists.{last_index};
ghost use Rattle.meaning.specs.Lookup.{list_of, as_type_ref};
ghost use Rattle.meaning.specs.Tree.{Member};
ghost use Rattle.meaning.specs.ReadType.{read_ty, read_members};
ghost use Rattle.bundle.specs.View.{Reads};
ghost use Rattle.bundle.specs.Definitions.{type_at, members_at, bundle_of, Table};
ghost use Rattle.table.specs.Table.{Within};
ghost use Rattle.field_index.specs.Noted.{field_name, parts_at, part_start, HasNotes, NotedTo, NotedPart, NotedFor, index_shown, IndicesOf, lead_shown, leads_of, LeadsTo, lead_is, LastIn, fields_at, ConstantsNoted, FieldsNoted, NotedBelow, Front};

use bundle::Definitions;
use fields::Shape;

// Where it stands for each definition whether it is an enum with variants of constant size.
pub const CONSTANTS_AT: usize = bundle::PLACES;

// Where it stands for each definition where its part starts.
const STARTS_AT: usize = CONSTANTS_AT + bundle::DEFINITIONS;

// Where it stands for each definition where its list of references starts (crate notes).
pub const LISTS_AT: usize = STARTS_AT + bundle::DEFINITIONS;

// Where the parts start.
pub const PARTS_AT: usize = LISTS_AT + bundle::DEFINITIONS + 1;

// Notes of every definition whether it is an enum with variants of constant size.
pub fn note_constants(s: &[u8], places: &mut [u16], count: usize)
    requires { Table s.now count places.old × (parts_at ≤ length places.old) }
    ensures { Table s.now count places.new × ConstantsNoted s.now places.new count }
{
    for i in 0..count {
        let at = places[i] as usize;
        let constant = sizes::is_enum_with_constant_size_variants(s, at, bundle::DEPTH_LIMIT);
        places[CONSTANTS_AT + i] = u16::from(constant);
    }
}

// Notes that field `k` of the `n` has the name `x`, in the part at `a` with `d` names. Returns how many names there are then.
fn note_name(notes: &mut [u16], a: usize, n: usize, d: usize, k: usize, x: u16) -> usize
    requires k_lt_n { (k < n) × (n < 65535) × (a + 2 + 5 * n ≤ length notes.old) }
    requires noted_to { (ms : List Member) × NotedTo ms notes.old a n d k × (field_name ms k ≡ x) }
    ensures { ((ms : List Member) → NotedTo ms notes.old a n d k → field_name ms k ≡ x → NotedTo ms notes.new a n result (k + 1)) × Within (a + 2) (a + 2 + 5 * n) notes.old notes.new }
{
    let r = tree::enter(notes, a + 2 + 2 * n, d, x);
    notes[a + 2 + n + r] = k as u16;
    if r < d {
        return d;
    }
    notes[a + 2 + r] = k as u16;
    d + 1
}

// One more than the number of the first definition of the name to which the type at `at`, a TypeRef, leads, or than the count of definitions
// where the name has none; 0 for other types. It is no `Option` since it is noted so: its place has 16 bits.
fn lead_at(definitions: &Definitions<'_>, at: usize) -> usize
    requires { Reads (read_ty 23 definitions.now.bytes.now at) }
    ensures { (result ≡ lead_shown (bundle_of definitions.now.bytes.now) (as_type_ref (type_at 23 definitions.now.bytes.now at))) × (result ≤ 257) }
{
    let shape = fields::shape_at(definitions.bytes, at, bundle::DEPTH_INSIDE);
    let Shape::TypeRef(x) = shape else {
        return 0;
    };
    lookup::definition_of(definitions, x).unwrap_or(definitions.count) + 1
}

// Notes the `n` fields that were read at `at` in the part at `a`. Returns where the part ends.
fn note_fields(s: &[u8], count: usize, at: usize, n: usize, notes: &mut [u16], a: usize) -> usize
    requires table { Table s.now count notes.old × Reads (read_members (read_ty 23) 0x50 n s.now at) }
    requires n_nonzero { (0 < n) × (parts_at ≤ a) × (a + 2 + 6 * n ≤ length notes.old) × (a + 2 + 6 * n < 65536) }
    ensures noted { NotedPart (list_of (members_at 23 0x50 n s.now at)) notes.new a × LeadsTo (leads_of (bundle_of s.now) (list_of (members_at 23 0x50 n s.now at))) notes.new a n n × Within a (a + 2 + 6 * n) notes.old notes.new }
    ensures ends { result ≡ a + 2 + 6 * n }
{
    notes[a] = n as u16;
    let mut next = at;
    let mut d = 0;
    for k in 0..n {
        let field = fields::field_at(s, next, bundle::DEPTH_INSIDE);
        d = note_name(notes, a, n, d, k, field.name);
        let definitions = Definitions {
            bytes: s,
            places: &*notes,
            count,
        };
        let lead = lead_at(&definitions, field.at);
        notes[a + 2 + 5 * n + k] = lead as u16;
        next = field.next;
    }
    notes[a + 1] = d as u16;
    a + 2 + 6 * n
}

// Notes the fields of definition `i`, if it is a struct with fields, behind the first `used` places. Returns how many are used then.
fn note_struct(s: &[u8], places: &mut [u16], count: usize, i: usize, used: usize) -> usize
    requires { Table s.now count places.old × (i < count) × NotedBelow s.now places.old i used }
    ensures { NotedBelow s.now places.new (i + 1) result × Front places.old places.new }
{
    let at = places[i] as usize;
    let shape = fields::shape_at(s, at, bundle::DEPTH_LIMIT);
    places[STARTS_AT + i] = 0;
    let Shape::Struct(n) = shape else {
        return used;
    };
    if n == 0 {
        return used;
    }
    places[STARTS_AT + i] = used as u16;
    note_fields(s, count, at + 12, n, places, used)
}

// Notes the fields of every struct. What stands behind the places for the constants before is free. Returns how many places are used.
pub fn note_structs(s: &[u8], places: &mut [u16], count: usize) -> usize
    requires table { Table s.now count places.old × (length s.now ≤ 32768) }
    requires s_bound { 2 * parts_at + 3 * length s.now + 9 ≤ 2 * length places.old }
    ensures { Table s.now count places.new × NotedBelow s.now places.new count result × Front places.old places.new }
{
    let mut used = PARTS_AT;
    for i in 0..count {
        used = note_struct(s, places, count, i, used);
    }
    used
}

// The index of the first field that has a name, and of the last.
#[derive(Clone, Copy)]
pub struct Indices {
    pub first: u16,
    pub last: u16,
}

// Those of the fields of definition `i` that have the name `x`, if one has it.
pub fn indices_of(places: &[u16], i: usize, x: u16) -> Option<Indices>
    requires { HasNotes places.now i }
    ensures of { (ms : List Member) → NotedFor ms places.now (part_start places.now i) → IndicesOf ms x result }
    ensures small { IfSome result (λ p. p.first < 65535) }
{
    let a = places[STARTS_AT + i] as usize;
    if a == 0 {
        return None;
    }
    let n = places[a] as usize;
    let d = places[a + 1] as usize;
    let r = tree::place_of(places, a + 2 + 2 * n, d, x)?;
    Some(Indices {
        first: places[a + 2 + r],
        last: places[a + 2 + n + r],
    })
}

// Which is the last of the `n` places at `at` that hold `x`, if one does.
fn last_in(t: &[u16], at: usize, n: usize, x: usize) -> Option<usize>
    requires { at + n ≤ length t.now }
    ensures { LastIn t.now at n x result }
{
    for k in (0..n).rev() {
        if t[at + k] as usize == x {
            return Some(k);
        }
    }
    None
}

// The index of the last field of definition `i` that leads where `lead` says, as that is noted, if there is one.
pub fn last_lead(definitions: &Definitions<'_>, i: usize, lead: usize) -> Option<usize>
    requires { FieldsNoted definitions.now.bytes.now definitions.now.places.now definitions.now.count × (i < definitions.now.count) }
    ensures { (result ≡ index_shown (last_index (lead_is (bundle_of definitions.now.bytes.now) lead) (fields_at definitions.now.bytes.now definitions.now.places.now i))) × IfSome result (λ k. 4 * (k + 1) ≤ length definitions.now.bytes.now) }
{
    let places = definitions.places;
    let a = places[STARTS_AT + i] as usize;
    if a == 0 {
        return None;
    }
    let n = places[a] as usize;
    last_in(places, a + 2 + 5 * n, n, lead)
}
