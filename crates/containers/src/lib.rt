// Whether an enum is in a struct to which its tag refers, and how far behind: one answer is kept for each name that is referred to.
#![tactic(auto)]

ghost use Rattle.std.specs.Prelude.{◌≡◌, Some, IfSome, ℕ, ◌+◌, ◌≤◌, ◌<◌, length};
ghost use Rattle.meaning.specs.Lists.{holds};
ghost use Rattle.meaning.specs.Lookup.{find_type};
ghost use Rattle.meaning.specs.Sizes.{is_enum_with_constant_size_variants};
ghost use Rattle.meaning.specs.Violations.{is_enum_referencing_same_container_struct};
ghost use Rattle.bundle.specs.Definitions.{bundle_of};
ghost use Rattle.field_index.specs.Noted.{ConstantsNoted, FieldsNoted, DefinitionsNoted};
ghost use Rattle.containers.specs.Containers.{Defined, LeadFor, contains_at, held_in, held_shown, container_shown, is_before, Known};

use bundle::Definitions;

// The structs of a name that have a field that is a TypeRef to an enum: there are none; there are some; the first definition is one, its
// last such field has this index, and the enum's variants are not of constant size.
//
// It is no `Option<Option<u16>>`: an answer is kept for each name in an `Option`, all are cleared for each definition, and that takes three
// times as long where they are three Options deep (measured: 90 ns and 27).
#[derive(Clone, Copy)]
pub enum Container {
    Nowhere,
    Somewhere,
    At(u16),
}

// What is noted stands in the clauses, and in no struct with `Definitions`: some need what is noted of the fields, some of constant sizes,
// and one struct of both would ask more of callers.

// Whether the enum's variants are of constant size, as it is noted of its first definition.
fn is_constant(definitions: &Definitions<'_>, name: u16) -> bool
    requires { ConstantsNoted definitions.now.bytes.now definitions.now.places.now definitions.now.count }
    ensures { result ≡ holds is_enum_with_constant_size_variants (find_type (bundle_of definitions.now.bytes.now) name) }
{
    let Some(i) = lookup::definition_of(definitions, name) else {
        return false;
    };
    definitions.places[field_index::CONSTANTS_AT + i] == 1
}

// Whether definition `i` has the name `container` and is a struct with a field that leads where `lead` says.
fn contains(definitions: &Definitions<'_>, i: usize, lead: usize, container: u16) -> bool
    requires { FieldsNoted definitions.now.bytes.now definitions.now.places.now definitions.now.count × (i < definitions.now.count) }
    ensures { (e : ℕ) → LeadFor definitions.now.bytes.now e lead → result ≡ contains_at definitions.now.bytes.now definitions.now.places.now i e container }
{
    let place = fields::place_of(definitions, i);
    if place.name != container {
        return false;
    }
    field_index::last_lead(definitions, i, lead).is_some()
}

// Whether some definition of the name `container`, from the first on, is a struct with a field that is a TypeRef to the enum, to whose
// first definition `lead` leads.
fn is_enum_referencing_same_container_struct(
    definitions: &Definitions<'_>,
    lead: usize,
    container: u16,
) -> bool
    requires { FieldsNoted definitions.now.bytes.now definitions.now.places.now definitions.now.count }
    ensures { (e : ℕ) → LeadFor definitions.now.bytes.now e lead → result ≡ is_enum_referencing_same_container_struct (bundle_of definitions.now.bytes.now) e container }
{
    let Some(first) = lookup::definition_of(definitions, container) else {
        return false;
    };
    for i in first..definitions.count {
        if contains(definitions, i, lead, container) {
            return true;
        }
    }
    false
}

// The index of the last field that is a TypeRef to the enum, in the first definition of the name `container`, if that is a struct with one
// and the enum's variants are not of constant size.
fn held_in(definitions: &Definitions<'_>, name: u16, lead: usize, container: u16) -> Option<usize>
    requires { DefinitionsNoted definitions.now.bytes.now definitions.now.places.now definitions.now.count × (length definitions.now.bytes.now ≤ 32768) × LeadFor definitions.now.bytes.now name lead }
    ensures { (result ≡ held_in (bundle_of definitions.now.bytes.now) name container) × IfSome result (λ k. k < 32768) }
{
    if is_constant(definitions, name) {
        return None;
    }
    let i = lookup::definition_of(definitions, container)?;
    field_index::last_lead(definitions, i, lead)
}

// The answer for the name `container`.
fn answer_for(definitions: &Definitions<'_>, name: u16, container: u16) -> Container
    requires { DefinitionsNoted definitions.now.bytes.now definitions.now.places.now definitions.now.count × (length definitions.now.bytes.now ≤ 32768) × Defined definitions.now.bytes.now name }
    ensures { result ≡ container_shown (bundle_of definitions.now.bytes.now) name container }
{
    let Some(first) = lookup::definition_of(definitions, name) else {
        return Container::Nowhere;
    };
    let lead = first + 1;
    if !is_enum_referencing_same_container_struct(definitions, lead, container) {
        return Container::Nowhere;
    }
    match held_in(definitions, name, lead, container) {
        Some(k) => Container::At(k as u16),
        None => Container::Somewhere,
    }
}

// The answer for a name. `known` has the answers that are known for the names of the definitions.
pub fn container_of(
    definitions: &Definitions<'_>,
    known: &mut [Option<Container>; bundle::DEFINITIONS],
    name: u16,
    container: u16,
) -> Container
    requires { DefinitionsNoted definitions.now.bytes.now definitions.now.places.now definitions.now.count × (length definitions.now.bytes.now ≤ 32768) × Known definitions.now.bytes.now name known.old }
    ensures { (result ≡ container_shown (bundle_of definitions.now.bytes.now) name container) × Known definitions.now.bytes.now name known.new }
{
    let Some(i) = lookup::definition_of(definitions, container) else {
        return answer_for(definitions, name, container);
    };
    if let Some(answer) = known[i] {
        return answer;
    }
    let answer = answer_for(definitions, name, container);
    known[i] = Some(answer);
    answer
}

// Whether in the first definition of the name `container`, if that is a struct, the last field that is a TypeRef to the enum stands before
// the last that is called `field`, and the enum's variants are not of constant size; `held` is what the answer for the name says.
pub fn stands_before(
    definitions: &Definitions<'_>,
    held: Container,
    container: u16,
    field: u16,
) -> bool
    requires { FieldsNoted definitions.now.bytes.now definitions.now.places.now definitions.now.count }
    ensures { (e : ℕ) → held ≡ held_shown (held_in (bundle_of definitions.now.bytes.now) e container) → result ≡ is_before (bundle_of definitions.now.bytes.now) e container field }
{
    let Container::At(at) = held else {
        return false;
    };
    let Some(i) = lookup::definition_of(definitions, container) else {
        return false;
    };
    let Some(indices) = field_index::indices_of(definitions.places, i, field) else {
        return false;
    };
    at < indices.last
}
