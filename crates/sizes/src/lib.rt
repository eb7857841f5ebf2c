// The field references in expressions and types, constant expressions, and the sizes of primitives.
#![tactic(auto)]

ghost use Rattle.std.specs.Prelude.{◌≡◌, ◌+◌, ◌≤◌, ◌<◌, length, Ok};
ghost use Rattle.meaning.specs.Kinds.{OfExpr, OfType, Primitive, form_of};
ghost use Rattle.meaning.specs.Limits.{size_limit};
ghost use Rattle.meaning.specs.Lists.{all};
ghost use Rattle.meaning.specs.Lookup.{list_of, as_primitive, parse_field_reference};
ghost use Rattle.meaning.specs.ReadExpr.{read_expr};
ghost use Rattle.meaning.specs.ReadType.{read_ty, read_members};
ghost use Rattle.meaning.specs.References.{is_constant};
ghost use Rattle.meaning.specs.Sizes.{get_primitive_size, has_size, one_size, is_enum_with_constant_size_variants};
ghost use Rattle.bundle.specs.View.{expr_form_meant, type_form_meant, form_meant, step_of, Reads};
ghost use Rattle.bundle.specs.Definitions.{type_at, members_at};
ghost use Rattle.bundle.specs.Expressions.{expr_at};
ghost use Rattle.scan.specs.Scan.{record_length};
ghost use Rattle.sizes.specs.Paths.{Fit, target_meant, size_shown};
ghost use Rattle.sizes.specs.Scan.{next_at, names_in, path_at, references_from, found_of};

use bundle::{ExprForm, Form, MemberForm, TypeForm};

// The lengths of records are those of scan::piece_of: with one function for both, each would match the form again, scan for TypeRef, Array
// and SizeUnion and this crate for SizeUnion.

// Where the expression's record at `at` ends.
#[tactic(auto, unfolding(bundle::specs::View::expr_form_meant, scan::specs::Scan::record_length))]
fn expr_end(at: usize, e: ExprForm) -> usize
    requires { at ≤ size_limit }
    ensures { result ≡ at + record_length (OfExpr (expr_form_meant e)) }
{
    match e {
        ExprForm::Literal(w) => at + 1 + usize::from(w),
        ExprForm::FieldRef(n) => at + 1 + 2 * usize::from(n),
        ExprForm::Sizeof => at + 3,
        ExprForm::Alignof => at + 3,
        ExprForm::Binary => at + 1,
        ExprForm::Unary => at + 1,
    }
}

// Where the type's record at `at` ends; a size-discriminated union is passed over whole.
#[tactic(auto, using(crate::proofs::ScanLaws::union_or), unfolding(bundle::specs::View::type_form_meant, scan::specs::Scan::record_length, scan::specs::Scan::is_size_union, crate::specs::Scan::next_at))]
fn type_end(s: &[u8], at: usize, t: TypeForm) -> usize
    requires { at ≤ size_limit }
    ensures { result ≡ next_at (OfType (type_form_meant t)) s.now at }
{
    match t {
        TypeForm::Primitive => at + 1,
        TypeForm::TypeRef => at + 3,
        TypeForm::Struct => at + 12,
        TypeForm::Union => at + 12,
        TypeForm::Enum => at + 12,
        TypeForm::Array => at + 11,
        TypeForm::SizeUnion => bundle::type_at(s, at, bundle::DEPTH_LIMIT).unwrap_or(at + 1),
    }
}

// Where a scan for references goes on behind the record at `at`, of this form.
#[tactic(auto, unfolding(bundle::specs::View::form_meant, scan::specs::Scan::record_length, scan::specs::Scan::is_size_union, crate::specs::Scan::next_at))]
fn next_at(s: &[u8], at: usize, form: Form) -> usize
    requires { at ≤ size_limit }
    ensures { result ≡ next_at (form_meant form) s.now at }
{
    match form {
        Form::OfExpr(e) => expr_end(at, e),
        Form::OfType(t) => type_end(s, at, t),
        Form::OfMember(m) => at + 3 + usize::from(bundle::value_width(m)),
        Form::OfRecord(_) => at + 1,
        Form::Unknown => at + 1,
    }
}

// The count of names, where the form is a field reference's.
#[tactic(auto, unfolding(bundle::specs::View::expr_form_meant, bundle::specs::View::form_meant, crate::specs::Scan::names_in))]
fn names_in(form: Form) -> Option<usize>
    ensures { result ≡ names_in (form_meant form) }
{
    let Form::OfExpr(e) = form else {
        return None;
    };
    let ExprForm::FieldRef(n) = e else {
        return None;
    };
    Some(usize::from(n))
}

// The position of the first field reference in the records from `at` to `end`.
#[tactic(auto, using(crate::proofs::NamesLaws::step_found, crate::proofs::NamesLaws::step_less, crate::proofs::NamesLaws::step_other, crate::proofs::NamesLaws::step_none))]
pub fn next_reference(s: &[u8], at: usize, end: usize) -> Option<usize>
    requires end_in_bounds { end ≤ length s.now }
    requires s_len_bound { length s.now ≤ size_limit }
    ensures { result ≡ found_of (references_from s.now at end) }
{
    let mut next = at;
    while next < end {
        let form = bundle::form_of(s[next]);
        if names_in(form).is_some() {
            return Some(next);
        }
        next = next_at(s, next, form);
    }
    None
}

// Whether no field reference is inside the expression that was read from `at` to `end`, with `depth` levels left.
#[tactic(auto, using(crate::proofs::ReferenceLaws::expr_bound))]
pub fn is_constant_to(s: &[u8], at: usize, end: usize, depth: usize) -> bool
    requires { (length s.now ≤ size_limit) × (Ok end ≡ step_of (read_expr depth s.now at)) }
    ensures { result ≡ is_constant (expr_at depth s.now at) }
{
    next_reference(s, at, end).is_none()
}

// Whether no field reference is inside the expression that was read at `at`.
#[tactic(auto, using(crate::proofs::ReferenceLaws::expr_no))]
pub fn is_constant(s: &[u8], at: usize, depth: usize) -> bool
    requires reads { Reads (read_expr depth s.now at) }
    requires s_len_bound { length s.now ≤ size_limit }
    ensures { result ≡ is_constant (expr_at depth s.now at) }
{
    let Ok(end) = bundle::expr_at(s, at, depth) else {
        return true;
    };
    is_constant_to(s, at, end, depth)
}

// A field reference is told by its place, as in the readers of crate bundle: what is known to stand there is a clause.

// The count of names of the field reference at `at`. They stand behind its kind byte, two bytes each.
#[tactic(auto, using(crate::proofs::PathLaws::path_counted))]
pub fn path_length(s: &[u8], at: usize) -> usize
    requires { at < length s.now }
    ensures { result ≡ length (path_at s.now at) }
{
    names_in(bundle::form_of(s[at])).unwrap_or(0)
}

// What a field reference means: a type's name, and the count and position of the names of the field part.
#[derive(Clone, Copy)]
pub struct Target {
    pub name: u16,
    pub count: usize,
    pub at: usize,
}

// What the field reference at `at` means, where `current` is the bundle's current name.
#[tactic(auto, using(crate::proofs::PathLaws::parse_few, crate::proofs::PathLaws::parse_more))]
pub fn parse_field_reference(s: &[u8], at: usize, current: u16) -> Target
    requires { Fit s.now at }
    ensures { target_meant s.now result ≡ parse_field_reference current (path_at s.now at) }
{
    let n = path_length(s, at);
    if n <= 1 {
        return Target {
            name: current,
            count: n,
            at: at + 1,
        };
    }
    let name = bundle::u16_at(s, at + 1);
    Target {
        name,
        count: n - 1,
        at: at + 3,
    }
}

// U8 to U64, I8 to I64, Char, F16, F32, F64.
const SIZES: [u8; 12] = [1, 2, 4, 8, 1, 2, 4, 8, 1, 2, 4, 8];

// The bytes of a primitive, by its kind byte: an enum of the twelve and the way to it from a byte would stand for one place in a table.
#[tactic(auto, using(crate::proofs::PrimitiveLaws::primitive_kind))]
pub fn get_primitive_size(kind: u8) -> u8
    requires { form_of kind ≡ OfType Primitive }
    ensures { result ≡ get_primitive_size kind }
{
    SIZES[usize::from(kind - 0x30)]
}

// The size of the type that was read at `at`, where it is a primitive; other types have no size of their own.
#[tactic(auto, using(bundle::proofs::TypeTrees::type_there))]
fn primitive_at(s: &[u8], at: usize, depth: usize) -> Option<u8>
    requires { Reads (read_ty depth s.now at) }
    ensures { result ≡ size_shown (as_primitive (type_at depth s.now at)) }
{
    if !bundle::type_is(s, at, TypeForm::Primitive) {
        return None;
    }
    Some(get_primitive_size(s[at]))
}

// Whether the `count` enum variants that were read at `at` are all primitives of `size` bytes. It goes from member to member as
// fixed::measure_members and offsets::write_offsets do: each finds a member's end by its own work, so an iterator over members would read
// each type twice, and one function for the three would take that work as a closure and keep a fact of its own for each.
fn all_of_size(s: &[u8], at: usize, depth: usize, count: usize, size: u8) -> bool
    requires { Reads (read_members (read_ty depth) 0x52 count s.now at) }
    ensures { result ≡ all (has_size size) (list_of (members_at depth 0x52 count s.now at)) }
{
    let mut next = at;
    for _ in 0..count {
        let Ok(body) = bundle::member_head_at(s, next, MemberForm::EnumVariant) else {
            return false;
        };
        let Some(w) = primitive_at(s, body, depth) else {
            return false;
        };
        if w != size {
            return false;
        }
        next = body + 1;
    }
    true
}

// Whether the `count` enum variants that were read at `at` are all primitives of one size, and there is one.
pub fn one_size(s: &[u8], at: usize, depth: usize, count: usize) -> bool
    requires { Reads (read_members (read_ty depth) 0x52 count s.now at) }
    ensures { result ≡ one_size (list_of (members_at depth 0x52 count s.now at)) }
{
    if count == 0 {
        return false;
    }
    let Ok(body) = bundle::member_head_at(s, at, MemberForm::EnumVariant) else {
        return false;
    };
    let Some(w) = primitive_at(s, body, depth) else {
        return false;
    };
    all_of_size(s, at, depth, count, w)
}

// Whether the type that was read at `at` is an enum of two variants or more, all primitives of one size.
#[tactic(auto, using(bundle::proofs::TypeTrees::type_there))]
pub fn is_enum_with_constant_size_variants(s: &[u8], at: usize, depth: usize) -> bool
    requires { Reads (read_ty depth s.now at) }
    ensures { result ≡ is_enum_with_constant_size_variants (type_at depth s.now at) }
{
    if !bundle::type_is(s, at, TypeForm::Enum) {
        return false;
    }
    let Ok((n, next)) = bundle::count_at(s, at + 1) else {
        return false;
    };
    let Ok(after) = bundle::expr_at(s, next, depth - 1) else {
        return false;
    };
    if n < 2 {
        return false;
    }
    one_size(s, after, depth - 1, n)
}
