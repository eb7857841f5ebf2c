// The call for the value of an array's size.
#![tactic(auto)]

ghost use Rattle.std.proofs.Math.Option.{some};
ghost use Rattle.std.specs.Prelude.{◌≡◌};
ghost use Rattle.meaning.specs.Lookup.{type_at};
ghost use Rattle.meaning.specs.ReadType.{read_ty};
ghost use Rattle.bundle.specs.View.{Reads};
ghost use Rattle.bundle.specs.Definitions.{bundle_of};
ghost use Rattle.bundle.specs.Definitions as bundles;
ghost use Rattle.fixed_meaning.specs.Valuing.{array_value, valuing};
ghost use Rattle.values.specs.Meant.{value_meant};

use bundle::{Definitions, TypeForm};
use refusal::Refusal;

// The value of the size of the type that was read at `at`, where it is an array.
#[tactic(auto, using(bundle::proofs::TypeTrees::type_there))]
fn array_value(s: &[u8], at: usize) -> Result<i64, Refusal>
    requires { Reads (read_ty 24 s.now at) }
    ensures { value_meant result ≡ array_value (some (bundles.type_at 24 s.now at)) }
{
    if !bundle::type_is(s, at, TypeForm::Array) {
        return Err(Refusal::Varies);
    }
    evaluate::value_of(s, at + 11, bundle::DEPTH_INSIDE)
}

// The answer for a definition of an opened bundle.
fn value_opened(definitions: &Definitions<'_>, definition: usize) -> Result<i64, Refusal>
    ensures { value_meant result ≡ array_value (type_at (bundle_of definitions.now.bytes.now) definition) }
{
    if definitions.count <= definition {
        return Err(Refusal::Varies);
    }
    array_value(definitions.bytes, definitions.places[definition] as usize)
}

// It opens as offsets::fixed_size does: what is opened lies in places of the call's own, so no function could hand the `Definitions` back.
//
// The value of the size of definition `definition`, which is an array.
pub fn size_value(bundle: &[u8], definition: usize) -> Result<i64, Refusal>
    ensures { value_meant result ≡ valuing definition bundle.now }
{
    let mut places = [0u16; bundle::PLACES];
    let layout = acceptance::open(bundle, &mut places)?;
    let definitions = Definitions {
        bytes: bundle,
        places: &places,
        count: layout.definitions,
    };
    value_opened(&definitions, definition)
}
