// Writes the records of a bundle one by one into a lent buffer.
#![tactic(auto)]

ghost use Rattle.std.specs.Prelude.{◌≡◌, ◌∷◌, [], ◌+◌, ◌-◌, ◌≤◌, length, replicate, T, map, MatchOption};
ghost use Rattle.std.proofs.Math.Option.{none, some};
ghost use Rattle.std.proofs.lemmas.List.Edits.{sets};
ghost use Rattle.names.specs.Documents.{byte, bytes};
ghost use Rattle.meaning.specs.Encoding.{number_items};
ghost use Rattle.meaning.specs.Kinds.{OfExpr, form_of};
ghost use Rattle.meaning.specs.Writing.{expr_fields, type_fields, member_fields, record_fields, fields_of, named, whole};
ghost use Rattle.meaning.specs.Writing.{body_items, record_due, writing};
ghost use Rattle.bundle.specs.Opened.{answer_meant};
ghost use Rattle.bundle.specs.View.{expr_form_meant, type_form_meant, member_width, record_kind};
ghost use Rattle.writer.specs.Shapes.{parts_of, ArePartsOf, is_width, is_count, sound, fields_in, Narrow, Checked, size_of};
ghost use Rattle.writer.specs.Places.{CallFrom};
ghost use Rattle.writer.specs.Stored.{Stored};

use bundle::{ExprForm, Form, MemberForm, RecordForm, TypeForm};
use refusal::Refusal;

// A part of a record's body: its bytes, its largest value, and the refusal of a larger one.
#[derive(Clone, Copy)]
pub struct Part {
    pub width: u8,
    pub most: u64,
    pub refusal: Refusal,
}

// A number that may be as large as fits its 1, 2, 4 or 8 bytes; a name is one of 2 bytes.
const W1: Part = Part {
    width: 1,
    most: u8::MAX as u64,
    refusal: Refusal::WrongValue,
};

const W2: Part = Part {
    width: 2,
    most: u16::MAX as u64,
    refusal: Refusal::WrongValue,
};

const W4: Part = Part {
    width: 4,
    most: u32::MAX as u64,
    refusal: Refusal::WrongValue,
};

const W8: Part = Part {
    width: 8,
    most: u64::MAX,
    refusal: Refusal::WrongValue,
};

const FLAG: Part = Part {
    width: 1,
    most: 1,
    refusal: Refusal::WrongValue,
};

const EDGE_KIND: Part = Part {
    width: 1,
    most: 3,
    refusal: Refusal::WrongValue,
};

const DEFINITION_COUNT: Part = Part {
    width: 2,
    most: bundle::DEFINITION_LIMIT as u64,
    refusal: Refusal::TooMany,
};

const EDGE_COUNT: Part = Part {
    width: 2,
    most: bundle::EDGE_LIMIT as u64,
    refusal: Refusal::TooMany,
};

const NAMES: [Part; 4] = [W2, W2, W2, W2];

// Packed, aligned, and the count of members.
const GROUP: [Part; 3] = [FLAG, W8, W2];

// Packed, aligned, jagged.
const ARRAY: [Part; 3] = [FLAG, W8, FLAG];

const HEADER: [Part; 3] = [DEFINITION_COUNT, EDGE_COUNT, W2];

const EDGE: [Part; 3] = [W2, W2, EDGE_KIND];

const ONE: [Part; 1] = [W1];

const TWO: [Part; 1] = [W2];

const FOUR: [Part; 1] = [W4];

const EIGHT: [Part; 1] = [W8];

const NAMED_EIGHT: [Part; 2] = [W2, W8];

// The body of a literal.
fn literal_parts(width: u8) -> &'static [Part]
    requires { T (is_width width) }
    ensures { result.now ≡ parts_of (whole width ∷ []) }
{
    match width {
        1 => &ONE,
        2 => &TWO,
        4 => &FOUR,
        _ => &EIGHT,
    }
}

// So many names.
fn name_parts(count: u8) -> &'static [Part]
    requires { count ≤ 4 }
    ensures { result.now ≡ parts_of (replicate count named) }
{
    &NAMES[..count as usize]
}

// The body of an expression.
fn expr_parts(form: ExprForm) -> &'static [Part]
    requires { T (sound (OfExpr (expr_form_meant form))) }
    ensures { result.now ≡ parts_of (expr_fields (expr_form_meant form)) }
{
    match form {
        ExprForm::Literal(width) => literal_parts(width),
        ExprForm::FieldRef(count) => name_parts(count),
        ExprForm::Sizeof | ExprForm::Alignof => name_parts(1),
        ExprForm::Binary | ExprForm::Unary => name_parts(0),
    }
}

// The body of a type.
fn type_parts(form: TypeForm) -> &'static [Part]
    ensures { result.now ≡ parts_of (type_fields (type_form_meant form)) }
{
    match form {
        TypeForm::Primitive => name_parts(0),
        TypeForm::TypeRef => name_parts(1),
        TypeForm::Array => &ARRAY,
        TypeForm::Struct | TypeForm::Union | TypeForm::Enum | TypeForm::SizeUnion => &GROUP,
    }
}

// The body of a member.
fn member_parts(form: MemberForm) -> &'static [Part]
    ensures { result.now ≡ parts_of (member_fields (member_width form)) }
{
    match form {
        MemberForm::Field | MemberForm::UnionVariant => name_parts(1),
        MemberForm::EnumVariant | MemberForm::SizedVariant => &NAMED_EIGHT,
    }
}

// The body of the header, a definition or an edge.
fn record_parts(form: RecordForm) -> &'static [Part]
    ensures { result.now ≡ parts_of (record_fields (record_kind form)) }
{
    match form {
        RecordForm::Header => &HEADER,
        RecordForm::Definition => name_parts(1),
        RecordForm::Edge => &EDGE,
    }
}

// The body of a record of this kind, or None where it is no kind.
fn parts_of(kind: u8) -> Option<&'static [Part]>
    ensures { MatchOption result (fields_of kind (form_of kind) ≡ none) (λ parts. ArePartsOf (fields_of kind (form_of kind)) parts.now) }
{
    match bundle::form_of(kind) {
        Form::OfExpr(expr) => Some(expr_parts(expr)),
        Form::OfType(ty) => Some(type_parts(ty)),
        Form::OfMember(member) => Some(member_parts(member)),
        Form::OfRecord(record) => Some(record_parts(record)),
        Form::Unknown => None,
    }
}

// Writes a number of `width` bytes, low byte first. `out` and `at` stay two parameters, as of decimal.
fn put_number(out: &mut [u8], at: usize, width: usize, value: u64)
    requires { (width ≤ 8) × (at + width ≤ length out.old) }
    ensures { out.new ≡ sets out.old at (bytes (number_items width value)) }
{
    out[at..at + width].copy_from_slice(&value.to_le_bytes()[..width]);
}

// The bytes of a record, or the refusal of the first value that is too large.
fn record_size(parts: &[Part], values: &[u64; 4]) -> Result<usize, Refusal>
    requires { Narrow parts.now × (length parts.now ≤ 4) }
    ensures { Checked parts.now values.now result }
{
    let mut size = 1;
    for (part, value) in parts.iter().zip(values) {
        if part.most < *value {
            return Err(part.refusal);
        }
        size += part.width as usize;
    }
    Ok(size)
}

// Writes a record whose values are not too large, where it has room.
fn write_parts(
    out: &mut [u8],
    at: usize,
    kind: u8,
    parts: &[Part],
    values: &[u64; 4],
) -> Result<usize, Refusal>
    requires { Narrow parts.now × (length parts.now ≤ 4) }
    ensures { CallFrom at (record_due kind values.now (some (fields_in parts.now))) out.old out.new (answer_meant result) }
{
    let size = record_size(parts, values)?;
    let room = out.len().saturating_sub(at);
    if room < size {
        return Err(Refusal::NoRoom);
    }
    out[at] = kind;
    let mut next = at + 1;
    for (part, value) in parts.iter().zip(values) {
        put_number(out, next, part.width as usize, *value);
        next += part.width as usize;
    }
    Ok(size)
}

// Writes the record of this kind at `at`. The values are those of its body, in order; those that the kind does not have are not looked at.
// The kind is any byte, and one that is no kind is refused: with a form in its place a caller would first be refused by the way to it.
// parts_of is that way, and write_parts writes the byte itself.
pub fn write_record(out: &mut [u8], at: usize, kind: u8, values: [u64; 4]) -> Result<usize, Refusal>
    ensures { CallFrom at (writing kind values) out.old out.new (answer_meant result) }
{
    let Some(parts) = parts_of(kind) else {
        return Err(Refusal::WrongKind);
    };
    write_parts(out, at, kind, parts, &values)
}

// A bundle whose records are written one by one is read back.
pub fn bundle_stored()
    ensures { Stored }
{}
