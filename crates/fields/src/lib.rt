// Types, fields and definitions of an opened bundle by their positions.
#![tactic(auto)]

ghost use Rattle.std.specs.Prelude.{Ok, ◌≡◌, ◌<◌, get_or};
ghost use Rattle.meaning.specs.ReadType.{read_ty, read_member};
ghost use Rattle.bundle.specs.View.{Reads, step_of};
ghost use Rattle.fields.specs.Shapes.{ShapeOf, FieldAt, PlacedAt};

use bundle::{Definitions, Form, TypeForm};

// What a type's kind byte and body say: the count of a struct's fields, a TypeRef's name.
#[derive(Clone, Copy)]
pub enum Shape {
    Struct(usize),
    Enum,
    Array,
    TypeRef(u16),
    Plain,
}

// A field's name, and where its type starts and ends.
#[derive(Clone, Copy)]
pub struct Field {
    pub name: u16,
    pub at: usize,
    pub next: usize,
}

// A definition's name, and where its type starts.
#[derive(Clone, Copy)]
pub struct Place {
    pub name: u16,
    pub at: usize,
}

// The shape of the type that was read at `at`.
#[tactic(auto, using(bundle::proofs::TypeTrees::type_there))]
pub fn shape_at(s: &[u8], at: usize, depth: usize) -> Shape
    requires { Reads (read_ty depth s.now at) }
    ensures { ShapeOf depth s.now at result }
{
    let Form::OfType(t) = bundle::form_of(s[at]) else {
        return Shape::Plain;
    };
    match t {
        TypeForm::Primitive => Shape::Plain,
        TypeForm::TypeRef => Shape::TypeRef(bundle::u16_at(s, at + 1)),
        TypeForm::Struct => match bundle::count_at(s, at + 1) {
            Ok((n, _)) => Shape::Struct(n),
            Err(_) => Shape::Plain,
        },
        TypeForm::Union => Shape::Plain,
        TypeForm::Enum => Shape::Enum,
        TypeForm::Array => Shape::Array,
        TypeForm::SizeUnion => Shape::Plain,
    }
}

// Where the type that was read at `at` ends, by reading it again.
fn read_again(s: &[u8], at: usize, depth: usize) -> usize
    requires { Reads (read_ty depth s.now at) }
    ensures { Ok result ≡ step_of (read_ty depth s.now at) }
{
    bundle::type_at(s, at, depth).unwrap_or(at)
}

// Where the type that was read at `at` ends: a primitive or a TypeRef, as most fields are, behind its own record.
#[tactic(auto, using(bundle::proofs::TypeTrees::type_there))]
fn type_end(s: &[u8], at: usize, depth: usize) -> usize
    requires { Reads (read_ty depth s.now at) }
    ensures { Ok result ≡ step_of (read_ty depth s.now at) }
{
    let Form::OfType(t) = bundle::form_of(s[at]) else {
        return at;
    };
    match t {
        TypeForm::Primitive => at + 1,
        TypeForm::TypeRef => at + 3,
        _ => read_again(s, at, depth),
    }
}

// The field that was read at `at`.
#[tactic(auto, using(crate::proofs::ShapeLaws::field_there))]
pub fn field_at(s: &[u8], at: usize, depth: usize) -> Field
    requires { Reads (read_member (read_ty depth) 0x50 s.now at) }
    ensures { FieldAt depth s.now at result }
{
    let body = at + 3;
    Field {
        name: bundle::u16_at(s, at + 1),
        at: body,
        next: type_end(s, body, depth),
    }
}

// The name of definition i, and where its type starts.
pub fn place_of(definitions: &Definitions<'_>, i: usize) -> Place
    requires { i < definitions.now.count }
    ensures { PlacedAt definitions.now.bytes.now definitions.now.places.now i result }
{
    let at = definitions.places[i] as usize;
    Place {
        name: bundle::u16_at(definitions.bytes, at - 2),
        at,
    }
}

// Where the type of definition i ends: 3 bytes before the next place.
pub fn end_of(definitions: &Definitions<'_>, i: usize) -> usize
    requires { i < definitions.now.count }
    ensures { Ok result ≡ step_of (read_ty 24 definitions.now.bytes.now (get_or definitions.now.places.now i 0)) }
{
    let next = definitions.places[i + 1] as usize;
    next - 3
}
