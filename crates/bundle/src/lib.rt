// Reads types and expressions by position: accepts exactly the bytes that the format allows.
#![tactic(auto)]

ghost use Rattle.std.specs.Prelude.{◌≡◌, ◌+◌, ◌≤◌, ◌<◌, ◌↔◌, IsTrue, length};
ghost use Rattle.meaning.specs.Kinds.{form_of};
ghost use Rattle.meaning.specs.ReadExpr.{body, read_expr};
ghost use Rattle.meaning.specs.ReadType.{head, array_head, member_head, read_ty, read_member, read_members, read_group, read_enum, read_array};
ghost use Rattle.meaning.specs.Reader.{little};
ghost use Rattle.bundle.specs.View.{member_kind, member_width, form_meant, kind_is, MemberOf, IsType};
ghost use Rattle.bundle.specs.View.{operands_of, step_of, count_of, Decodes};

use refusal::Refusal;

mod places;

pub use places::{Definitions, Opened};

// What an expression's kind byte fixes: its body and what follows. A literal has its body length, a field reference its
// count of names.
#[derive(Clone, Copy)]
pub enum ExprForm {
    Literal(u8),
    FieldRef(u8),
    Sizeof,
    Alignof,
    Binary,
    Unary,
}

// The operands of an expression: none and a body of so many bytes, one, or two.
#[derive(Clone, Copy)]
pub enum Operands {
    None(usize),
    One,
    Two,
}

// What a type's kind byte fixes.
#[derive(Clone, Copy, PartialEq)]
pub enum TypeForm {
    Primitive,
    TypeRef,
    Struct,
    Union,
    Enum,
    Array,
    SizeUnion,
}

// The members of a struct, union, enum and size-discriminated union, with their kind bytes.
#[derive(Clone, Copy)]
pub enum MemberForm {
    Field = 0x50,
    UnionVariant = 0x51,
    EnumVariant = 0x52,
    SizedVariant = 0x53,
}

// The records outside all types, with their kind bytes.
#[derive(Clone, Copy)]
pub enum RecordForm {
    Header = 0x60,
    Definition = 0x61,
    Edge = 0x62,
}

// What a kind byte fixes: an expression or type of a form, a member, a record outside all types. Unknown is a case of its own, not an
// Option's None: most readers ask for one form, and would ask for `Some(Form::OfType(t))`; four others (renumber, scan, sizes, writer) name
// it among the cases.
#[derive(Clone, Copy)]
pub enum Form {
    OfExpr(ExprForm),
    OfType(TypeForm),
    OfMember(MemberForm),
    OfRecord(RecordForm),
    Unknown,
}

// The counts of a bundle, the position of its first edge and its current name.
#[derive(Clone, Copy)]
pub struct Layout {
    pub definitions: usize,
    pub edges: usize,
    pub edges_at: usize,
    pub current: u16,
}

// The limits of a bundle: its bytes, the counts of its header, and the levels of a definition's type.
pub const BYTE_LIMIT: usize = 32768;

pub const DEFINITION_LIMIT: u16 = 256;

pub const EDGE_LIMIT: u16 = 1024;

pub const DEPTH_LIMIT: usize = 24;

// The levels inside a definition's type.
pub const DEPTH_INSIDE: usize = DEPTH_LIMIT - 1;

// Lengths of lists: a place for each definition, each edge, each name of the longest chain.
pub const DEFINITIONS: usize = DEFINITION_LIMIT as usize;

pub const EDGES: usize = EDGE_LIMIT as usize;

pub const CHAIN_LIMIT: usize = EDGES + 1;

// What `places` has: the positions of the definitions and one more; how many names they have; the first definition of each of these names;
// and the names, in a table of so many buckets, so that at most 64 names share one. `PLACES` is how many that makes. It is one slice, lent
// by callers (no heap, fixed memory), and each chooses its length: behind these places stand the notes of a report (field_index, notes).
pub const NAMES_AT: usize = DEFINITIONS + 1;

pub const FIRSTS_AT: usize = NAMES_AT + 1;

pub const TABLE_AT: usize = FIRSTS_AT + DEFINITIONS;

pub const BUCKETS: usize = 1024;

pub const PLACES: usize = TABLE_AT + BUCKETS + 2 * DEFINITIONS;

// A bundle of at most so many bytes is short: places for a long one would take longer to clear than all else.
pub const SHORT_BYTES: usize = 1024;

const WIDTHS: [u8; 8] = [8, 4, 2, 1, 8, 4, 2, 1];

// The member of this kind, with no value behind its name, and one with a value. With one function for both the compiler works out a width
// where it branched, and accepting a bundle of many members takes 7 parts in 100 longer.
fn bare_member(kind: u8) -> MemberForm
    requires { (0x50 ≤ kind) × (kind ≤ 0x51) }
    ensures { member_kind result ≡ kind }
{
    if kind == 0x50 {
        MemberForm::Field
    } else {
        MemberForm::UnionVariant
    }
}

fn valued_member(kind: u8) -> MemberForm
    requires { (0x52 ≤ kind) × (kind ≤ 0x53) }
    ensures { member_kind result ≡ kind }
{
    if kind == 0x52 {
        MemberForm::EnumVariant
    } else {
        MemberForm::SizedVariant
    }
}

impl TryFrom<u8> for MemberForm {
    type Error = Refusal;

    ghost try_from_gives = { Decodes };

    fn try_from(kind: u8) -> Result<Self, Refusal> {
        match kind {
            0x50 => Ok(MemberForm::Field),
            0x51 => Ok(MemberForm::UnionVariant),
            0x52 => Ok(MemberForm::EnumVariant),
            0x53 => Ok(MemberForm::SizedVariant),
            _ => Err(Refusal::WrongKind),
        }
    }
}

// The kind byte of a member.
pub fn member_kind(member: MemberForm) -> u8
    ensures { result ≡ member_kind member }
{
    member as u8
}

// The bytes of the value behind a member's name.
pub fn value_width(member: MemberForm) -> u8
    ensures { result ≡ member_width member }
{
    match member {
        MemberForm::Field | MemberForm::UnionVariant => 0,
        MemberForm::EnumVariant | MemberForm::SizedVariant => 8,
    }
}

// The form of a kind. The compiler takes this function into its callers, which then branch once on the kind, as long as no table of
// jumps goes over much more than the types: so Sizeof, Alignof and the records outside types are ranges.
pub fn form_of(kind: u8) -> Form
    ensures form { form_meant result ≡ form_of kind }
    ensures member { MemberOf kind result }
{
    match kind {
        0x01..=0x08 => Form::OfExpr(ExprForm::Literal(WIDTHS[(kind - 1) as usize])),
        0x09..=0x0C => Form::OfExpr(ExprForm::FieldRef(kind - 8)),
        0x0D..=0x0E => {
            if kind == 0x0D {
                Form::OfExpr(ExprForm::Sizeof)
            } else {
                Form::OfExpr(ExprForm::Alignof)
            }
        }
        0x10..=0x23 => Form::OfExpr(ExprForm::Binary),
        0x24..=0x27 => Form::OfExpr(ExprForm::Unary),
        0x30..=0x3B => Form::OfType(TypeForm::Primitive),
        0x40 => Form::OfType(TypeForm::TypeRef),
        0x41 => Form::OfType(TypeForm::Struct),
        0x42 => Form::OfType(TypeForm::Union),
        0x43 => Form::OfType(TypeForm::Enum),
        0x44 => Form::OfType(TypeForm::Array),
        0x45 => Form::OfType(TypeForm::SizeUnion),
        0x50..=0x51 => Form::OfMember(bare_member(kind)),
        0x52..=0x53 => Form::OfMember(valued_member(kind)),
        0x60..=0x62 => {
            if kind == 0x60 {
                Form::OfRecord(RecordForm::Header)
            } else if kind == 0x61 {
                Form::OfRecord(RecordForm::Definition)
            } else {
                Form::OfRecord(RecordForm::Edge)
            }
        }
        _ => Form::Unknown,
    }
}

// Whether the record at `at` is a type's of this form.
pub fn type_is(s: &[u8], at: usize, form: TypeForm) -> bool
    requires { at < length s.now }
    ensures { IsTrue result ↔ IsType s.now at form }
{
    let Form::OfType(t) = form_of(s[at]) else {
        return false;
    };
    t == form
}

// The readers take the bytes and a place in them. A struct of both, with what is known to stand there as a ghost field, would be made anew
// for each call, as `At { bytes: s, at: at + 11 }` for `s, at + 11`: they are asked for one place behind the other in the same bytes.

// The end of the n bytes that are due at `at`.
pub fn skip_bytes(s: &[u8], at: usize, n: usize) -> Result<usize, Refusal>
    requires { at ≤ length s.now }
    ensures { result ≡ step_of (body n s.now at) }
{
    if n <= s.len() - at {
        Ok(at + n)
    } else {
        Err(Refusal::Short)
    }
}

// The operands of an expression, by its form.
#[tactic(auto, unfolding(crate::specs::View::form_meant, crate::specs::View::expr_form_meant, crate::specs::View::operands_of, crate::specs::View::expr_operands))]
fn operands_of(form: Form) -> Result<Operands, Refusal>
    ensures { result ≡ operands_of (form_meant form) }
{
    let Form::OfExpr(expr) = form else {
        return Err(Refusal::WrongKind);
    };
    Ok(match expr {
        ExprForm::Literal(w) => Operands::None(w as usize),
        ExprForm::FieldRef(n) => Operands::None(2 * (n as usize)),
        ExprForm::Sizeof => Operands::None(2),
        ExprForm::Alignof => Operands::None(2),
        ExprForm::Binary => Operands::Two,
        ExprForm::Unary => Operands::One,
    })
}

// The end of the expression at `at`, where `depth` levels are left. `due` has the levels of the n right operands that are still to
// be read, the next one last. Each is below the one before it, so only an expression of more than 32 levels needs the call.
//
// A slice is handed on by its address. The call gets a slice of its own, `&s[..]`, so that `s` itself stays in registers; so does
// the call in `member_at`.
pub fn expr_at(s: &[u8], at: usize, depth: usize) -> Result<usize, Refusal>
    ensures { result ≡ step_of (read_expr depth s.now at) }
{
    let mut due = [0u8; 32];
    let mut n = 0;
    let mut level = depth;
    let mut next = at;
    while 0 < level {
        if s.len() <= next {
            return Err(Refusal::Short);
        }
        let operands = operands_of(form_of(s[next]))?;
        next += 1;
        level -= 1;
        match operands {
            Operands::None(w) => {
                if s.len() - next < w {
                    return Err(Refusal::Short);
                }
                next += w;
                if n == 0 {
                    return Ok(next);
                }
                n -= 1;
                level = due[n] as usize;
            }
            Operands::One => {}
            Operands::Two => {
                if level < 32 - n {
                    due[n] = level as u8;
                    n += 1;
                } else {
                    next = expr_at(&s[..], next, level)?;
                }
            }
        }
    }
    Err(Refusal::TooDeep)
}

// The number in the two bytes at `at`.
pub fn u16_at(s: &[u8], at: usize) -> u16
    requires { at + 2 ≤ length s.now }
    ensures { result ≡ little s.now at 2 }
{
    u16::from_le_bytes([s[at], s[at + 1]])
}

// The member count in the body of a struct, union or enum.
#[tactic(auto, using(crate::proofs::HeadLaws::count_short, crate::proofs::HeadLaws::count_packed, crate::proofs::HeadLaws::count_ok))]
pub fn count_at(s: &[u8], at: usize) -> Result<(usize, usize), Refusal>
    requires { at ≤ length s.now }
    ensures { result ≡ count_of (head 2 s.now at) }
{
    if s.len() - at < 11 {
        return Err(Refusal::Short);
    }
    if 1 < s[at] {
        return Err(Refusal::WrongValue);
    }
    let n = u16_at(s, at + 9);
    Ok((n as usize, at + 11))
}

// The end of an array's body.
#[tactic(auto, using(crate::proofs::HeadLaws::array_short, crate::proofs::HeadLaws::array_packed, crate::proofs::HeadLaws::array_jagged, crate::proofs::HeadLaws::array_ok))]
fn array_head_at(s: &[u8], at: usize) -> Result<usize, Refusal>
    requires { at ≤ length s.now }
    ensures { result ≡ step_of (array_head s.now at) }
{
    if s.len() - at < 10 {
        return Err(Refusal::Short);
    }
    if 1 < s[at] {
        return Err(Refusal::WrongValue);
    }
    if 1 < s[at + 9] {
        return Err(Refusal::WrongValue);
    }
    Ok(at + 10)
}

// The place behind the kind byte at `at`, which must be `kind`, a member's or a record's: an enum of both would be taken apart again for
// this byte.
#[tactic(auto, using(crate::proofs::HeadLaws::kind_short, crate::proofs::HeadLaws::kind_stranger, crate::proofs::HeadLaws::kind_ok))]
pub fn behind_kind(s: &[u8], at: usize, kind: u8) -> Result<usize, Refusal>
    ensures { result ≡ step_of (kind_is kind s.now at) }
{
    if s.len() <= at {
        return Err(Refusal::Short);
    }
    if s[at] != kind {
        return Err(Refusal::WrongKind);
    }
    Ok(at + 1)
}

// The end of a member's own record.
pub fn member_head_at(s: &[u8], at: usize, member: MemberForm) -> Result<usize, Refusal>
    ensures { result ≡ step_of (member_head (member_kind member) s.now at) }
{
    let body = behind_kind(s, at, member_kind(member))?;
    skip_bytes(s, body, 2 + (value_width(member) as usize))
}

// The end of the type at `at`, where `depth` levels are left.
#[cycle(types)]
pub fn type_at(s: &[u8], at: usize, depth: usize) -> Result<usize, Refusal>
    ensures { result ≡ step_of (read_ty depth s.now at) }
{
    if depth == 0 {
        return Err(Refusal::TooDeep);
    }
    if s.len() <= at {
        return Err(Refusal::Short);
    }
    let kind = s[at];
    let form = form_of(kind);
    let Form::OfType(t) = form else {
        return Err(Refusal::WrongKind);
    };
    let body = at + 1;
    match t {
        TypeForm::Primitive => Ok(body),
        TypeForm::TypeRef => skip_bytes(s, body, 2),
        TypeForm::Struct => group_at(s, body, depth - 1, MemberForm::Field),
        TypeForm::Union => group_at(s, body, depth - 1, MemberForm::UnionVariant),
        TypeForm::Enum => enum_at(s, body, depth - 1),
        TypeForm::Array => array_at(s, body, depth - 1),
        TypeForm::SizeUnion => group_at(s, body, depth - 1, MemberForm::SizedVariant),
    }
}

// The end of the struct or union whose body is at `at` and which has such members; `depth` is for the types inside.
#[cycle(types)]
fn group_at(s: &[u8], at: usize, depth: usize, member: MemberForm) -> Result<usize, Refusal>
    requires { at ≤ length s.now }
    ensures { result ≡ step_of (read_group (read_ty depth) (member_kind member) s.now at) }
{
    let (n, next) = count_at(s, at)?;
    members_at(s, next, depth, member, n)
}

// The end of the enum whose body is at `at`; `depth` is for what is inside.
#[cycle(types)]
fn enum_at(s: &[u8], at: usize, depth: usize) -> Result<usize, Refusal>
    requires { at ≤ length s.now }
    ensures { result ≡ step_of (read_enum (read_expr depth) (read_ty depth) s.now at) }
{
    let (n, next) = count_at(s, at)?;
    let after = expr_at(s, next, depth)?;
    members_at(s, after, depth, MemberForm::EnumVariant, n)
}

// The end of the array whose body is at `at`; `depth` is for what is inside.
#[cycle(types)]
fn array_at(s: &[u8], at: usize, depth: usize) -> Result<usize, Refusal>
    requires { at ≤ length s.now }
    ensures { result ≡ step_of (read_array (read_expr depth) (read_ty depth) s.now at) }
{
    let next = array_head_at(s, at)?;
    let after = expr_at(s, next, depth)?;
    type_at(s, after, depth)
}

// The end of the member at `at`.
#[cycle(types)]
fn member_at(s: &[u8], at: usize, depth: usize, member: MemberForm) -> Result<usize, Refusal>
    ensures { result ≡ step_of (read_member (read_ty depth) (member_kind member) s.now at) }
{
    let next = member_head_at(s, at, member)?;
    type_at(&s[..], next, depth)
}

// The end of the `count` members at `at`. It loops as acceptance::{edges_at, definitions_at} do: one function for the three would take the
// next line as a closure, and nothing else would be left of each.
#[cycle(types)]
fn members_at(
    s: &[u8],
    at: usize,
    depth: usize,
    member: MemberForm,
    count: usize,
) -> Result<usize, Refusal>
    ensures { result ≡ step_of (read_members (read_ty depth) (member_kind member) count s.now at) }
{
    let mut next = at;
    for _ in 0..count {
        next = member_at(s, next, depth, member)?;
    }
    Ok(next)
}
