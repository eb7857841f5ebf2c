// The call for the size, alignment and field offsets of a definition that never varies.
#![tactic(auto)]

ghost use Rattle.std.specs.Prelude.{false, ◌++◌, ◌≡◌, ◌≤◌, ◌<◌, length, drop};
ghost use Rattle.meaning.specs.Circle.{circles};
ghost use Rattle.meaning.specs.ReadType.{read_ty, read_members};
ghost use Rattle.bundle.specs.View.{Reads};
ghost use Rattle.bundle.specs.Definitions.{bundle_of};
ghost use Rattle.fixed_meaning.specs.Extent.{sized};
ghost use Rattle.fixed_meaning.specs.Fixed.{definition_extent};
ghost use Rattle.fixed_definitions.specs.Keeping.{Known, KeptExtents};
ghost use Rattle.offsets.specs.Placed.{HasEnd, joined, kept_offsets, Answered, Placing, FixedCall, Resolved, FieldsAre};

use bundle::{Definitions, MemberForm, TypeForm};
use extents::{Extent, Packing, Unsized};
use fixed::Extents;
use refusal::Refusal;

// The answer: size, alignment and the length of the list of offsets.
#[derive(Clone, Copy)]
pub struct Placement {
    pub size: u64,
    pub alignment: u64,
    pub offsets: usize,
}

// The fields of a struct: how they are packed, how many there are and where the first is.
#[derive(Clone, Copy)]
struct FieldList {
    packing: Packing,
    count: usize,
    at: usize,
}

// That no definition leads back to itself is a clause: a struct of `Definitions` with it would be made in fixed_size alone and taken apart
// by each of the three that ask for it.

// Where the TypeRefs of a definition lead.
fn resolved(definitions: &Definitions<'_>, definition: usize) -> usize
    requires { (definition < definitions.now.count) × (circles (bundle_of definitions.now.bytes.now) ≡ false) }
    ensures { Resolved definitions.now.bytes.now definition result }
{
    let Definitions {
        bytes,
        places,
        count,
    } = *definitions;
    let mut i = definition;
    for _ in 0..count {
        let at = places[i] as usize;
        if !scan::leads(bytes, at) {
            return at;
        }
        let Some(j) = lookup::definition_of(definitions, bundle::u16_at(bytes, at + 1)) else {
            return at;
        };
        i = j;
    }
    places[i] as usize
}

// The fields of the type that was read at `at`, where it is a struct.
#[tactic(auto, using(bundle::proofs::TypeTrees::type_there, bundle::proofs::Parts::type_opened, crate::proofs::PlacingLaws::struct_there), unfolding(bundle::specs::View::type_form_meant))]
fn fields_at(s: &[u8], at: usize) -> Option<FieldList>
    requires { Reads (read_ty 24 s.now at) }
    ensures { FieldsAre s.now at result }
{
    if !bundle::type_is(s, at, TypeForm::Struct) {
        return None;
    }
    Some(FieldList {
        packing: extents::packing_of(s[at + 1]),
        count: bundle::u16_at(s, at + 10) as usize,
        at: at + 12,
    })
}

// Writes the offsets of these fields, of a struct that is fixed. fixed::measure_members has the like of the loop: one for both would take
// `|i, so, m| { offsets[i] = ..; with_field(..) }`, whose contract says of each i what the loop's invariant says here.
fn write_offsets(
    definitions: &Definitions<'_>,
    kept: &Extents,
    fields: FieldList,
    offsets: &mut [u32],
)
    requires fields_read { Reads (read_members (read_ty 23) 0x50 fields.count definitions.now.bytes.now fields.at) }
    requires in_bounds { (fields.count ≤ length offsets.old) × (fields.count < 65536) }
    requires ended { HasEnd (joined definitions.now.bytes.now kept.now fields) }
    ensures { offsets.new ≡ kept_offsets definitions.now.bytes.now kept.now fields ++ drop fields.count offsets.old }
{
    let mut so = Ok(extents::NONE);
    let mut next = fields.at;
    for i in 0..fields.count {
        let m = fixed::measure_member(
            definitions,
            kept,
            next,
            bundle::DEPTH_INSIDE,
            MemberForm::Field,
        );
        offsets[i] = extents::field_offset(fields.packing, so, m.extent) as u32;
        so = extents::with_field(fields.packing, so, m.extent);
        next = m.end;
    }
}

// The answer for a definition of this extent.
fn place(
    definitions: &Definitions<'_>,
    kept: &Extents,
    definition: usize,
    extent: Extent,
    offsets: &mut [u32],
) -> Result<Placement, Refusal>
    requires below { (definition < definitions.now.count) × (circles (bundle_of definitions.now.bytes.now) ≡ false) }
    requires kept_extents { KeptExtents definitions.now.bytes.now kept.now × Known definitions.now.bytes.now kept.now definition }
    requires extent_is { definition_extent (bundle_of definitions.now.bytes.now) definition ≡ sized extent.size extent.alignment }
    ensures { Placing definitions.now.bytes.now definition extent.size extent.alignment offsets.old offsets.new result }
{
    let bare = Placement {
        size: extent.size,
        alignment: extent.alignment,
        offsets: 0,
    };
    let Some(fields) = fields_at(definitions.bytes, resolved(definitions, definition)) else {
        return Ok(bare);
    };
    if offsets.len() < fields.count {
        return Err(Refusal::NoRoom);
    }
    write_offsets(definitions, kept, fields, offsets);
    Ok(Placement {
        offsets: fields.count,
        ..bare
    })
}

// The answer for a definition of an opened bundle.
fn fixed_opened(
    definitions: &Definitions<'_>,
    definition: usize,
    offsets: &mut [u32],
) -> Result<Placement, Refusal>
    requires { circles (bundle_of definitions.now.bytes.now) ≡ false }
    ensures { Answered definitions.now.bytes.now definition offsets.old offsets.new result }
{
    let count = definitions.count;
    if count <= definition {
        return Err(Refusal::Varies);
    }
    let mut kept = [None; bundle::DEFINITIONS];
    fixed_definitions::measure_definition(definitions, &mut kept, definition, count);
    let extent = kept[definition].unwrap_or(Err(Unsized::Circle))?;
    place(definitions, &kept, definition, extent, offsets)
}

// The size and alignment of definition `definition`, and in `offsets` the offsets of its fields where it is a struct, also by TypeRefs.
pub fn fixed_size(
    bundle: &[u8],
    definition: usize,
    offsets: &mut [u32],
) -> Result<Placement, Refusal>
    ensures { FixedCall definition bundle.now offsets.old offsets.new result }
{
    let mut places = [0u16; bundle::PLACES];
    let layout = acceptance::open(bundle, &mut places)?;
    let definitions = Definitions {
        bytes: bundle,
        places: &places,
        count: layout.definitions,
    };
    fixed_opened(&definitions, definition, offsets)
}
