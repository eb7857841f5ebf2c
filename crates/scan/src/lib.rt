// Records lie one after another: how long each is, and which of them a walk over a type stops at.
#![tactic(auto)]

ghost use Rattle.std.specs.Prelude.{◌&&◌, ◌≡◌, ◌+◌, ◌≤◌, ◌<◌, eqb, length, get_or};
ghost use Rattle.bundle.specs.View.{form_meant};
ghost use Rattle.scan.specs.Parts.{is_lead};
ghost use Rattle.scan.specs.Scan.{record_length, part_of, part_at, Records, NextStop, piece_of, asks_sizes, asks_jagged};

use bundle::{ExprForm, Form, TypeForm};

// What a walk over records stops at: what leads to a definition, and also what makes a size depend on a field, jagged arrays, or both.
// No caller asks for both yet.
#[derive(Clone, Copy)]
pub enum Walk {
    Definitions,
    Sizes,
    Jagged,
    SizesAndJagged,
}

// Whether the walk asks for sizes.
fn asks_sizes(walk: Walk) -> bool
    ensures { result ≡ asks_sizes walk }
{
    matches!(walk, Walk::Sizes | Walk::SizesAndJagged)
}

// Whether it asks for jagged arrays.
fn asks_jagged(walk: Walk) -> bool
    ensures { result ≡ asks_jagged walk }
{
    matches!(walk, Walk::Jagged | Walk::SizesAndJagged)
}

// Whether the array at `at` is jagged, in a walk that asks for that.
fn is_jagged(s: &[u8], at: usize, walk: Walk) -> bool
    requires { at + 11 ≤ length s.now }
    ensures { result ≡ (asks_jagged walk && eqb (get_or s.now (at + 10) 0) 1) }
{
    asks_jagged(walk) && s[at + 10] == 1
}

// The length of the record at `at`, of this form, or None where the walk stops at it.
#[tactic(auto, unfolding(bundle::specs::View::form_meant, bundle::specs::View::expr_form_meant, bundle::specs::View::type_form_meant, crate::specs::Scan::record_length, crate::specs::Scan::part_of, crate::specs::Scan::stops))]
fn piece_of(s: &[u8], at: usize, form: Form, walk: Walk) -> Option<usize>
    requires { at + record_length (form_meant form) ≤ length s.now }
    ensures { result ≡ piece_of (asks_sizes walk) (asks_jagged walk) (part_of s.now at (form_meant form)) (record_length (form_meant form)) }
{
    match form {
        Form::OfExpr(e) => match e {
            ExprForm::Literal(w) => Some(1 + usize::from(w)),
            ExprForm::FieldRef(n) => (!asks_sizes(walk)).then_some(1 + 2 * usize::from(n)),
            ExprForm::Sizeof => Some(3),
            ExprForm::Alignof => Some(3),
            ExprForm::Binary => Some(1),
            ExprForm::Unary => Some(1),
        },
        Form::OfType(t) => match t {
            TypeForm::Primitive => Some(1),
            TypeForm::TypeRef => None,
            TypeForm::Struct => Some(12),
            TypeForm::Union => Some(12),
            TypeForm::Enum => Some(12),
            TypeForm::Array => (!is_jagged(s, at, walk)).then_some(11),
            TypeForm::SizeUnion => (!asks_sizes(walk)).then_some(12),
        },
        Form::OfMember(m) => Some(3 + usize::from(bundle::value_width(m))),
        Form::OfRecord(_) => Some(1),
        Form::Unknown => Some(1),
    }
}

// The first record from `at` to `end` at which the walk stops, if there is one.
pub fn next_stop(s: &[u8], at: usize, end: usize, walk: Walk) -> Option<usize>
    requires { Records s.now at end }
    ensures { NextStop s.now at end (asks_sizes walk) (asks_jagged walk) result }
{
    let mut next = at;
    while next < end {
        let Some(n) = piece_of(s, next, bundle::form_of(s[next]), walk) else {
            return Some(next);
        };
        next += n;
    }
    None
}

// Whether the record at `at` leads to a definition.
pub fn leads(s: &[u8], at: usize) -> bool
    requires { at < length s.now }
    ensures { result ≡ is_lead (part_at s.now at) }
{
    bundle::type_is(s, at, TypeForm::TypeRef)
}
