// The size and alignment of types, where those of the definitions are kept.
#![tactic(auto)]

ghost use Rattle.std.specs.Prelude.{◌≡◌, ◌+◌, ◌≤◌, ◌<◌, length};
ghost use Rattle.meaning.specs.Reader.{little};
ghost use Rattle.meaning.specs.ReadExpr.{read_expr};
ghost use Rattle.meaning.specs.ReadType.{read_ty, read_member, read_members, read_group, read_enum, read_array};
ghost use Rattle.bundle.specs.View.{Reads, member_kind};
ghost use Rattle.extents.specs.Meant.{extent_meant, members_meant, mark};
ghost use Rattle.fixed.specs.Kept.{known};
ghost use Rattle.fixed.specs.Walk.{join_of, attributes_at, close_of};
ghost use Rattle.fixed.specs.Walk.{TypeMeasured, EnumMeasured, ArrayMeasured, MemberMeasured, MembersMeasured, GroupMeasured};

use bundle::{Definitions, Form, MemberForm, TypeForm};
use extents::{Extent, Members, Packing, Unsized};

// Of each definition its extent, where that is known.
pub type Extents = [Option<Result<Extent, Unsized>>; bundle::DEFINITIONS];

// The extent of a type, or of members that are still to be closed, and where it ends.
#[derive(Clone, Copy)]
pub struct Measured<T> {
    pub extent: Result<T, Unsized>,
    pub end: usize,
}

// A primitive of this size, to which it aligns.
fn primitive(size: u8) -> Extent
    requires { 0 < size }
    ensures { (result.size ≡ size) × (result.alignment ≡ size) }
{
    let size = u64::from(size);
    Extent {
        size,
        alignment: size,
    }
}

// The members so far with one more: a field goes behind the others, a variant over them.
#[tactic(auto, unfolding(crate::specs::Walk::join_of))]
fn join(
    member: MemberForm,
    packing: Packing,
    so: Result<Members, Unsized>,
    part: Result<Extent, Unsized>,
) -> Result<Members, Unsized>
    ensures { members_meant result ≡ join_of (member_kind member) (mark packing) (members_meant so) (extent_meant part) }
{
    match member {
        MemberForm::Field => extents::with_field(packing, so, part),
        MemberForm::UnionVariant | MemberForm::EnumVariant | MemberForm::SizedVariant => {
            extents::with_member(so, part)
        }
    }
}

// The type whose body is at `at`, by its members: it varies where they have values.
fn closed_at(
    s: &[u8],
    at: usize,
    member: MemberForm,
    so: Result<Members, Unsized>,
) -> Result<Extent, Unsized>
    requires { at + 9 ≤ length s.now }
    ensures { extent_meant result ≡ close_of (member_kind member) (attributes_at s.now at) (members_meant so) }
{
    let fixed = match member {
        MemberForm::Field | MemberForm::UnionVariant => so,
        MemberForm::EnumVariant | MemberForm::SizedVariant => Err(extents::vary(so)),
    };
    extents::close(
        extents::packing_of(s[at]),
        evaluate::number_at(s, at + 1, 8),
        fixed,
    )
}

// The extent of the first definition of the name at `at`.
fn measure_name(definitions: &Definitions<'_>, kept: &Extents, at: usize) -> Result<Extent, Unsized>
    requires { at + 2 ≤ length definitions.now.bytes.now }
    ensures { extent_meant result ≡ known definitions.now.bytes.now kept.now (little definitions.now.bytes.now at 2) }
{
    let name = bundle::u16_at(definitions.bytes, at);
    let Some(i) = lookup::definition_of(definitions, name) else {
        return Err(Unsized::Varies);
    };
    kept[i].unwrap_or(Err(Unsized::Circle))
}

// The extent and the end of the type that was read at `at`.
#[cycle(measures)]
pub fn measure_type(
    definitions: &Definitions<'_>,
    kept: &Extents,
    at: usize,
    depth: usize,
) -> Measured<Extent>
    requires { Reads (read_ty depth definitions.now.bytes.now at) }
    ensures { TypeMeasured definitions.now.bytes.now kept.now (read_ty depth definitions.now.bytes.now at) result }
{
    let kind = definitions.bytes[at];
    let Form::OfType(t) = bundle::form_of(kind) else {
        unreachable!()
    };
    let body = at + 1;
    match t {
        TypeForm::Primitive => Measured {
            extent: Ok(primitive(sizes::get_primitive_size(kind))),
            end: body,
        },
        TypeForm::TypeRef => Measured {
            extent: measure_name(definitions, kept, body),
            end: body + 2,
        },
        TypeForm::Struct => measure_group(definitions, kept, body, depth - 1, MemberForm::Field),
        TypeForm::Union => {
            measure_group(definitions, kept, body, depth - 1, MemberForm::UnionVariant)
        }
        TypeForm::Enum => measure_enum(definitions, kept, body, depth - 1),
        TypeForm::Array => measure_array(definitions, kept, body, depth - 1),
        TypeForm::SizeUnion => {
            measure_group(definitions, kept, body, depth - 1, MemberForm::SizedVariant)
        }
    }
}

// The same for the struct or union whose body is at `at` and which has such members.
#[cycle(measures)]
fn measure_group(
    definitions: &Definitions<'_>,
    kept: &Extents,
    at: usize,
    depth: usize,
    member: MemberForm,
) -> Measured<Extent>
    requires { Reads (read_group (read_ty depth) (member_kind member) definitions.now.bytes.now at) }
    ensures { GroupMeasured definitions.now.bytes.now kept.now depth (member_kind member) at result }
{
    let s = definitions.bytes;
    let n = bundle::u16_at(s, at + 9) as usize;
    let packing = extents::packing_of(s[at]);
    let m = measure_members(definitions, kept, at + 11, depth, member, packing, n);
    Measured {
        extent: closed_at(s, at, member, m.extent),
        end: m.end,
    }
}

// The same for the enum whose body is at `at`.
#[cycle(measures)]
fn measure_enum(
    definitions: &Definitions<'_>,
    kept: &Extents,
    at: usize,
    depth: usize,
) -> Measured<Extent>
    requires { Reads (read_enum (read_expr depth) (read_ty depth) definitions.now.bytes.now at) }
    ensures { EnumMeasured definitions.now.bytes.now kept.now depth at result }
{
    let s = definitions.bytes;
    let n = bundle::u16_at(s, at + 9) as usize;
    let Ok(after) = bundle::expr_at(s, at + 11, depth) else {
        unreachable!()
    };
    let packing = extents::packing_of(s[at]);
    let member = MemberForm::EnumVariant;
    let m = measure_members(definitions, kept, after, depth, member, packing, n);
    Measured {
        extent: closed_at(s, at, member, m.extent),
        end: m.end,
    }
}

// The same for the array whose body is at `at`.
#[cycle(measures)]
fn measure_array(
    definitions: &Definitions<'_>,
    kept: &Extents,
    at: usize,
    depth: usize,
) -> Measured<Extent>
    requires { Reads (read_array (read_expr depth) (read_ty depth) definitions.now.bytes.now at) }
    ensures { ArrayMeasured definitions.now.bytes.now kept.now depth at result }
{
    let s = definitions.bytes;
    let Ok(after) = bundle::expr_at(s, at + 10, depth) else {
        unreachable!()
    };
    let m = measure_type(definitions, kept, after, depth);
    let jagged = s[at + 9] == 1;
    let counted = if jagged {
        None
    } else {
        evaluate::count_of(s, at + 10, depth)
    };
    Measured {
        extent: extents::array_of(counted, m.extent),
        end: m.end,
    }
}

// The same for the member at `at`, by its type.
#[cycle(measures)]
pub fn measure_member(
    definitions: &Definitions<'_>,
    kept: &Extents,
    at: usize,
    depth: usize,
    member: MemberForm,
) -> Measured<Extent>
    requires { Reads (read_member (read_ty depth) (member_kind member) definitions.now.bytes.now at) }
    ensures { MemberMeasured definitions.now.bytes.now kept.now depth (member_kind member) at result }
{
    let Ok(body) = bundle::member_head_at(definitions.bytes, at, member) else {
        unreachable!()
    };
    measure_type(definitions, kept, body, depth)
}

// The n such members that were read at `at`, joined.
#[cycle(measures)]
fn measure_members(
    definitions: &Definitions<'_>,
    kept: &Extents,
    at: usize,
    depth: usize,
    member: MemberForm,
    packing: Packing,
    n: usize,
) -> Measured<Members>
    requires { Reads (read_members (read_ty depth) (member_kind member) n definitions.now.bytes.now at) }
    ensures { MembersMeasured definitions.now.bytes.now kept.now depth (member_kind member) (mark packing) n at result }
{
    let mut so = Ok(extents::NONE);
    let mut next = at;
    for _ in 0..n {
        let m = measure_member(definitions, kept, next, depth, member);
        so = join(member, packing, so, m.extent);
        next = m.end;
    }
    Measured {
        extent: so,
        end: next,
    }
}
