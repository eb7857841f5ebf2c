// The report of a bundle: its violations as bytes, or why it is refused.
#![tactic(auto)]

ghost use Rattle.meaning.specs.Calls.{Call};
ghost use Rattle.meaning.specs.Due.{reporting};
ghost use Rattle.bundle.specs.Opened.{answer_meant};

use refusal::Refusal;

// Places for the definitions, the fields and the references of a short bundle, and of any: three for every two bytes. A constant calls no
// function here, so both are written out.
const SHORT_PLACES: usize = field_index::PARTS_AT + (3 * bundle::SHORT_BYTES + 10) / 2;

const PLACES: usize = field_index::PARTS_AT + (3 * bundle::BYTE_LIMIT + 10) / 2;

// Writes the report of a bundle of any length. It is no instance of one function with `report`: that one also turns away many edges.
fn report_long(bundle: &[u8], out: &mut [u8]) -> Result<usize, Refusal>
    ensures { Call (reporting bundle.now) out.old out.new (answer_meant result) }
{
    let mut places = [0u16; PLACES];
    let layout = acceptance::open(bundle, &mut places)?;
    let notes = notes::notes_of(bundle, &mut places, layout);
    report_opened::report_in::<{ chain::PLACES }, { search::PLACES }>(&notes, out)
}

// Writes the report of a bundle into the first places of `out`. A refusal writes nothing. A short bundle with few edges is not worth
// the clearing of places for a long one. It is opened here: were `report_long` called only once, the compiled code would join it to
// this function, and a short bundle would touch every page of its lists.
pub fn report(bundle: &[u8], out: &mut [u8]) -> Result<usize, Refusal>
    ensures { Call (reporting bundle.now) out.old out.new (answer_meant result) }
{
    if bundle::SHORT_BYTES < bundle.len() {
        return report_long(bundle, out);
    }
    let mut short = [0u16; SHORT_PLACES];
    let layout = acceptance::open(bundle, &mut short)?;
    if chain::FEW_EDGES < layout.edges {
        return report_long(bundle, out);
    }
    let notes = notes::notes_of(bundle, &mut short, layout);
    report_opened::report_in::<{ chain::FEW_PLACES }, { search::FEW_PLACES }>(&notes, out)
}
