// What a check finds, the parts of a reference, and the check of an array's element, under the names of the original.
#![tactic(auto)]

ghost use Rattle.std.specs.Prelude.{◌≡◌, not, ◌∷◌, ◌≤◌, length, drop};
ghost use Rattle.meaning.specs.Limits.{size_limit};
ghost use Rattle.meaning.specs.Lists.{holds};
ghost use Rattle.meaning.specs.Lookup.{find_type, is_struct};
ghost use Rattle.meaning.specs.ReadType.{read_ty};
ghost use Rattle.meaning.specs.Violations.{check_jagged_element_kind, check_jagged_array_constraints, check_array_element_type_size};
ghost use Rattle.bundle.specs.View.{Reads};
ghost use Rattle.bundle.specs.Definitions.{type_at, bundle_of};
ghost use Rattle.sizes.specs.Paths.{Fit};
ghost use Rattle.sizes.specs.Scan.{path_at, references_from, Fits};
ghost use Rattle.checks.specs.Checks.{PartOf, Checked, Referred};

use bundle::Definitions;
use fields::Shape;
use size_tests::TestAnswers;

// A violation that a check finds, by its type. The chain stands beside it in a lent list.
#[derive(Clone, Copy)]
pub enum Finding {
    // Type 1: the struct and the field.
    EnumForward(u16, u16),
    // Types 2 and 3: where the reference is written, and the length of the chain.
    EnumCycle(usize, usize),
    ArrayCycle(usize, usize),
    // Type 4: where the reference is written.
    FieldForward(usize),
    // Types 5 to 8.
    VariableElement,
    JaggedReference,
    JaggedInline,
    NestedJagged,
}

// Puts three names into the first places of the list.
pub fn set_chain(list: &mut [u16], a: u16, b: u16, c: u16)
    requires { 3 ≤ length list.old }
    ensures { list.new ≡ a ∷ b ∷ c ∷ drop 3 list.old }
{
    list[..3].copy_from_slice(&[a, b, c]);
}

// The field part of the reference at `path`, if that is one name. A part of two or three names equals no field's name.
pub fn field_part(s: &[u8], path: usize) -> Option<u16>
    requires { Fit s.now path }
    ensures { PartOf (path_at s.now path) result }
{
    match sizes::path_length(s, path) {
        1 => Some(bundle::u16_at(s, path + 1)),
        2 => Some(bundle::u16_at(s, path + 3)),
        _ => None,
    }
}

// The first field reference in the records from `at` to `end`, and where the record behind it starts.
pub fn reference_at(s: &[u8], at: usize, end: usize) -> Option<(usize, usize)>
    requires { (end ≤ length s.now) × (length s.now ≤ size_limit) × Fits s.now (references_from s.now at end) }
    ensures { Referred s.now at end result }
{
    let p = sizes::next_reference(s, at, end)?;
    Some((p, p + 1 + 2 * sizes::path_length(s, p)))
}

// Whether the first definition of the name is there and is no struct.
fn is_no_struct(definitions: &Definitions<'_>, name: u16) -> bool
    ensures { result ≡ holds (λ t. not (is_struct t)) (find_type (bundle_of definitions.now.bytes.now) name) }
{
    let Some(i) = lookup::definition_of(definitions, name) else {
        return false;
    };
    let at = fields::place_of(definitions, i).at;
    !matches!(
        fields::shape_at(definitions.bytes, at, bundle::DEPTH_LIMIT),
        Shape::Struct(_)
    )
}

// Types 6 and 7, for the element at `at` of a jagged array.
fn check_jagged_element_kind(
    definitions: &Definitions<'_>,
    name: u16,
    at: usize,
    list: &mut [u16],
) -> Option<Finding>
    requires { Reads (read_ty 23 definitions.now.bytes.now at) × (3 ≤ length list.old) }
    ensures { Checked definitions.now.bytes.now name list.new result (λ i. check_jagged_element_kind (bundle_of definitions.now.bytes.now) i name (type_at 23 definitions.now.bytes.now at)) }
{
    match fields::shape_at(definitions.bytes, at, bundle::DEPTH_INSIDE) {
        Shape::Struct(_) => None,
        Shape::TypeRef(n) => {
            if !is_no_struct(definitions, n) {
                return None;
            }
            set_chain(list, name, n, 0);
            Some(Finding::JaggedReference)
        }
        _ => {
            set_chain(list, name, 0, 0);
            Some(Finding::JaggedInline)
        }
    }
}

// Types 6 to 8, for the element at `at` of a jagged array.
fn check_jagged_array_constraints(
    answers: &mut TestAnswers<'_>,
    name: u16,
    at: usize,
    list: &mut [u16],
) -> Option<Finding>
    requires { Reads (read_ty 23 answers.old.definitions.bytes.now at) × (3 ≤ length list.old) }
    ensures { Checked answers.old.definitions.bytes.now name list.new result (λ i. check_jagged_array_constraints (bundle_of answers.old.definitions.bytes.now) i name (type_at 23 answers.old.definitions.bytes.now at)) × (answers.new.definitions ≡ answers.old.definitions) }
{
    let kind = check_jagged_element_kind(&answers.definitions, name, at, list);
    if kind.is_some() {
        return kind;
    }
    if !answers.type_contains_jagged_array(at, bundle::DEPTH_INSIDE) {
        return None;
    }
    set_chain(list, name, 0, 0);
    Some(Finding::NestedJagged)
}

// Types 5 to 8, for the element at `at` of an array whose jagged byte is `jagged`. It is asked here alone: an enum would be made from the
// byte by the one caller, for one question, and need a definition that takes it back to the byte that the specification's check asks.
pub fn check_array_element_type_size(
    answers: &mut TestAnswers<'_>,
    name: u16,
    jagged: u8,
    at: usize,
    list: &mut [u16],
) -> Option<Finding>
    requires { Reads (read_ty 23 answers.old.definitions.bytes.now at) × (3 ≤ length list.old) }
    ensures { Checked answers.old.definitions.bytes.now name list.new result (λ i. check_array_element_type_size (bundle_of answers.old.definitions.bytes.now) i name jagged (type_at 23 answers.old.definitions.bytes.now at)) × (answers.new.definitions ≡ answers.old.definitions) }
{
    if jagged == 1 {
        return check_jagged_array_constraints(answers, name, at, list);
    }
    if !answers.type_size_depends_on_field_refs_recursive(at, bundle::DEPTH_INSIDE) {
        return None;
    }
    set_chain(list, name, 0, 0);
    Some(Finding::VariableElement)
}
