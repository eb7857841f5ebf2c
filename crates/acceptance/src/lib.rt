// Opens a bundle: reads all of it, notes the positions of its definitions, looks for circles, and says whether it is accepted.
#![tactic(auto)]

ghost use Rattle.std.specs.Prelude.{◌≡◌, ◌+◌, ◌≤◌, ◌<◌, length, ◌∷◌, [], Ok};
ghost use Rattle.meaning.specs.ReadBundle.{read_edge, read_header, read_edges};
ghost use Rattle.meaning.specs.Reader.{many};
ghost use Rattle.meaning.specs.Circle.{circles};
ghost use Rattle.meaning.specs.Calls.{acceptance, answer_of};
ghost use Rattle.bundle.specs.View.{step_of};
ghost use Rattle.records.specs.Header.{counts_of};
ghost use Rattle.bundle.specs.Definitions.{bundle_of, places_end, DefinitionsAt, Places, Table};
ghost use Rattle.acceptance.specs.Circles.{Marks, Decided};
ghost use Rattle.bundle.specs.Opened.{IsRead, IsOpened, answer_meant};

use bundle::{Definitions, Layout, RecordForm};
use records::Header;
use refusal::Refusal;
use scan::Walk;

// The end of the edge at `at`.
fn edge_at(s: &[u8], at: usize) -> Result<usize, Refusal>
    ensures { result ≡ step_of (read_edge s.now at) }
{
    let body = records::opening_at(s, at, RecordForm::Edge)?;
    if 3 < s[body + 4] {
        return Err(Refusal::WrongValue);
    }
    Ok(body + 5)
}

// The end of the `count` definitions at `at`. `places` gets the position of each one's type, and behind them where one more would be.
fn definitions_at(s: &[u8], at: usize, count: usize, places: &mut [u16]) -> Result<usize, Refusal>
    requires { (length s.now ≤ 32768) × (count ≤ 256) × (256 < length places.old) × (at ≤ length s.now) }
    ensures { DefinitionsAt s.now at count places.new result }
{
    let mut next = at;
    for i in 0..count {
        let after = records::definition_at(s, next)?;
        places[i] = (next + 3) as u16;
        next = after;
    }
    places[count] = (next + 3) as u16;
    Ok(next)
}

// The end of the `count` edges at `at`.
fn edges_at(s: &[u8], at: usize, count: usize) -> Result<usize, Refusal>
    ensures { result ≡ step_of (many ◌∷◌ [] read_edge count s.now at) }
{
    let mut next = at;
    for _ in 0..count {
        next = edge_at(s, next)?;
    }
    Ok(next)
}

// The end of the `count` edges at `at`, which must be the end of the bytes.
fn edges_end(s: &[u8], at: usize, count: usize) -> Result<usize, Refusal>
    ensures { result ≡ step_of (read_edges count s.now at) }
{
    let next = edges_at(s, at, count)?;
    if next < s.len() {
        return Err(Refusal::Trailing);
    }
    Ok(next)
}

// Notes the names of the definitions behind their positions: each once in the table of names, and for each its first definition.
fn note_names(s: &[u8], count: usize, places: &mut [u16])
    requires { (count ≡ length (bundle_of s.now).definitions) × Places s.now (bundle_of s.now).definitions places.old × (places_end ≤ length places.old) }
    ensures { Table s.now count places.new }
{
    let start = bundle::TABLE_AT;
    table::empty(&mut places[start..], 0, bundle::BUCKETS);
    let mut names = 0;
    for i in 0..count {
        let at = places[i] as usize;
        let name = bundle::u16_at(s, at - 2);
        let r = table::enter(&mut places[start..], 0, bundle::BUCKETS, names, name);
        places[bundle::FIRSTS_AT + names] = i as u16;
        if r == names {
            names += 1;
        }
    }
    places[bundle::NAMES_AT] = names as u16;
}

// The layout of the bundle that the bytes are, which has this header, or the first fault.
fn rest_at(s: &[u8], header: Header, places: &mut [u16]) -> Result<Layout, Refusal>
    requires { (length s.now ≤ 32768) × (places_end ≤ length places.old) × (Ok header ≡ counts_of (read_header s.now 0)) }
    ensures { IsRead s.now places.new result }
{
    let next = definitions_at(s, header.end, header.definitions, places)?;
    edges_end(s, next, header.edges)?;
    note_names(s, header.definitions, places);
    Ok(Layout {
        definitions: header.definitions,
        edges: header.edges,
        edges_at: next,
        current: bundle::u16_at(s, 5),
    })
}

// The layout of the bundle that the bytes are, or their first fault; circles are not looked for.
fn bundle_at(s: &[u8], places: &mut [u16]) -> Result<Layout, Refusal>
    requires { places_end ≤ length places.old }
    ensures { IsRead s.now places.new result }
{
    if bundle::BYTE_LIMIT < s.len() {
        return Err(Refusal::TooLong);
    }
    let header = records::header_at(s)?;
    rest_at(s, header, places)
}

// How far a definition is walked.
#[derive(Clone, Copy)]
enum Mark {
    Unseen,
    // On the way to the one that is walked now.
    OnWay,
    Walked,
}

// Whether every sequence of TypeRefs from definition `i` ends.
fn walk_definition(
    definitions: &Definitions<'_>,
    marks: &mut [Mark; bundle::DEFINITIONS],
    i: usize,
) -> bool
    requires { (i < definitions.now.count) × Marks (bundle_of definitions.now.bytes.now) (i ∷ []) marks.old }
    ensures { Decided (bundle_of definitions.now.bytes.now) (i ∷ []) marks.old marks.new result }
{
    let places = definitions.places;
    match marks[i] {
        Mark::Walked => return true,
        Mark::OnWay => return false,
        Mark::Unseen => {}
    }
    marks[i] = Mark::OnWay;
    let end = places[i + 1] as usize - 3;
    let mut at = places[i] as usize;
    while let Some((j, next)) = lookup::next_led(definitions, at, end) {
        if !walk_definition(definitions, marks, j) {
            return false;
        }
        at = next;
    }
    marks[i] = Mark::Walked;
    true
}

// Whether some definition leads back to itself.
fn circle(definitions: &Definitions<'_>) -> bool
    ensures { result ≡ circles (bundle_of definitions.now.bytes.now) }
{
    let mut marks = [Mark::Unseen; bundle::DEFINITIONS];
    for i in 0..definitions.count {
        if !walk_definition(definitions, &mut marks, i) {
            return true;
        }
    }
    false
}

// The layout of the bundle that the bytes are, and in `places` the position of each definition's type and the first definition of
// each name; or the refusal of the bytes. What `places` holds before is free.
pub fn open(bundle: &[u8], places: &mut [u16]) -> Result<Layout, Refusal>
    requires { places_end ≤ length places.old }
    ensures { IsOpened bundle.now places.new result }
{
    let layout = bundle_at(bundle, places)?;
    let definitions = Definitions {
        bytes: bundle,
        places,
        count: layout.definitions,
    };
    if circle(&definitions) {
        return Err(Refusal::Circle);
    }
    Ok(layout)
}

// Whether the bytes are accepted: a result of no length, or why they are refused.
pub fn accept(bundle: &[u8]) -> Result<usize, Refusal>
    ensures { answer_meant result ≡ answer_of (acceptance bundle.now) 0 }
{
    let mut places = [0u16; bundle::PLACES];
    open(bundle, &mut places)?;
    Ok(0)
}
