// Reads the records outside all types: what opens each of them, a definition with its type, and the header.
#![tactic(auto)]

ghost use Rattle.std.specs.Prelude.{◌≡◌, ◌+◌, ◌*◌};
ghost use Rattle.meaning.specs.ReadBundle.{opening, read_definition, read_header};
ghost use Rattle.bundle.specs.View.{record_kind, record_before, record_names, record_behind, step_of};
ghost use Rattle.records.specs.Header.{counts_of};

use bundle::RecordForm;
use refusal::Refusal;

// The numbers of definitions and edges that the header has, and where it ends.
#[derive(Clone, Copy)]
pub struct Header {
    pub definitions: usize,
    pub edges: usize,
    pub end: usize,
}

// The bytes of the body of a header, definition or edge.
fn record_length(form: RecordForm) -> usize
    ensures { result ≡ record_before form + 2 * record_names form + record_behind form }
{
    match form {
        RecordForm::Header => 6,
        RecordForm::Definition => 2,
        RecordForm::Edge => 5,
    }
}

// The kind byte of a header, definition or edge.
fn record_kind(form: RecordForm) -> u8
    ensures { result ≡ record_kind form }
{
    form as u8
}

// The body of the header, definition or edge at `at`, which must be whole.
pub fn opening_at(s: &[u8], at: usize, form: RecordForm) -> Result<usize, Refusal>
    ensures { result ≡ step_of (opening (record_kind form) s.now at) }
{
    let body = bundle::behind_kind(s, at, record_kind(form))?;
    bundle::skip_bytes(s, body, record_length(form))?;
    Ok(body)
}

// The end of the definition at `at`.
#[tactic(auto, using(crate::proofs::RecordLaws::definition_there, crate::proofs::RecordLaws::definition_ends))]
pub fn definition_at(s: &[u8], at: usize) -> Result<usize, Refusal>
    ensures { result ≡ step_of (read_definition s.now at) }
{
    let body = opening_at(s, at, RecordForm::Definition)?;
    bundle::type_at(s, body + 2, bundle::DEPTH_LIMIT)
}

// The counts in the header.
#[tactic(auto, using(crate::proofs::RecordLaws::header_there))]
pub fn header_at(s: &[u8]) -> Result<Header, Refusal>
    ensures { result ≡ counts_of (read_header s.now 0) }
{
    let body = opening_at(s, 0, RecordForm::Header)?;
    let definitions = bundle::u16_at(s, body);
    let edges = bundle::u16_at(s, body + 2);
    if bundle::DEFINITION_LIMIT < definitions {
        return Err(Refusal::TooMany);
    }
    if bundle::EDGE_LIMIT < edges {
        return Err(Refusal::TooMany);
    }
    Ok(Header {
        definitions: usize::from(definitions),
        edges: usize::from(edges),
        end: body + 6,
    })
}
