// Renumbers the names of a bundle by first appearance.
#![tactic(auto)]

ghost use Rattle.std.specs.Prelude.{◌≡◌, ◌++◌, ◌+◌, ◌*◌, ◌≤◌, ◌<◌, length, drop};
ghost use Rattle.names.specs.Records.{Whole, renumber_bytes};
ghost use Rattle.table.specs.Table.{Members};
ghost use Rattle.meaning.specs.Kinds.{body, form_parts};
ghost use Rattle.meaning.specs.Limits.{size_limit};
ghost use Rattle.meaning.specs.Calls.{Call};
ghost use Rattle.meaning.specs.Due.{renumbering};
ghost use Rattle.bundle.specs.View.{form_meant};
ghost use Rattle.bundle.specs.Definitions.{buckets, places_end};
ghost use Rattle.bundle.specs.Opened.{answer_meant};
ghost use Rattle.renumber.specs.Scan.{due, name_first, behind, Put};

use bundle::{ExprForm, Form, RecordForm, TypeForm};
use refusal::Refusal;

// The parts of a record's body that are still to come: bytes, then names, then bytes.
#[derive(Clone, Copy)]
struct Parts(u8, u8, u8);

// The parts of the body of a record of this form.
#[tactic(auto, unfolding(bundle::specs::View::form_meant, bundle::specs::View::expr_form_meant, bundle::specs::View::type_form_meant))]
fn parts_of(form: Form) -> Parts
    ensures { due result ≡ form_parts (form_meant form) }
{
    match form {
        Form::OfExpr(e) => match e {
            ExprForm::Literal(w) => Parts(w, 0, 0),
            ExprForm::FieldRef(n) => Parts(0, n, 0),
            ExprForm::Sizeof => Parts(0, 1, 0),
            ExprForm::Alignof => Parts(0, 1, 0),
            ExprForm::Binary => Parts(0, 0, 0),
            ExprForm::Unary => Parts(0, 0, 0),
        },
        Form::OfType(t) => match t {
            TypeForm::Primitive => Parts(0, 0, 0),
            TypeForm::TypeRef => Parts(0, 1, 0),
            TypeForm::Struct => Parts(11, 0, 0),
            TypeForm::Union => Parts(11, 0, 0),
            TypeForm::Enum => Parts(11, 0, 0),
            TypeForm::Array => Parts(10, 0, 0),
            TypeForm::SizeUnion => Parts(11, 0, 0),
        },
        Form::OfMember(m) => Parts(0, 1, bundle::value_width(m)),
        Form::OfRecord(r) => match r {
            RecordForm::Header => Parts(4, 1, 0),
            RecordForm::Definition => Parts(0, 1, 0),
            RecordForm::Edge => Parts(0, 2, 1),
        },
        Form::Unknown => Parts(0, 0, 0),
    }
}

// Whether a name comes next.
fn name_due(left: Parts) -> bool
    ensures { result ≡ name_first (due left) }
{
    left.0 == 0 && 0 < left.1
}

// What is left behind the next part; where nothing was left, the body of a record of this kind. It gets the byte, not a form: most bytes
// are no kinds, and their forms would be worked out for nothing.
fn behind_next(left: Parts, kind: u8) -> Parts
    ensures { due result ≡ behind (due left) kind }
{
    if 0 < left.0 {
        return Parts(left.0 - 1, left.1, left.2);
    }
    if 0 < left.1 {
        return Parts(0, left.1 - 1, left.2);
    }
    if 0 < left.2 {
        return Parts(0, 0, left.2 - 1);
    }
    parts_of(bundle::form_of(kind))
}

// Writes the number of the name at `at` to the same place of `out`, so that `at` is a place of both: its place in the table, which has
// `next` names. Gives how many it has then, which is the next number.
fn put_name(s: &[u8], out: &mut [u8], table: &mut [u16], at: usize, next: usize) -> usize
    requires at_in_bounds { (at + 2 ≤ length s.now) × (length s.now ≤ length out.old) }
    requires members { Members table.old 0 buckets next × (buckets + 2 * next + 2 ≤ length table.old) × (next < 65535) }
    ensures { Put s.now at table.old next out.old out.new table.new result }
{
    let name = bundle::u16_at(s, at);
    let number = table::enter(table, 0, bundle::BUCKETS, next, name);
    let bytes = (number as u16).to_le_bytes();
    out[at] = bytes[0];
    out[at + 1] = bytes[1];
    if number == next { next + 1 } else { next }
}

// Writes whole records to the first places of `out`, with their names renumbered. The table gets the names, 0 first, each by its first
// appearance. A name has two bytes in the records and two places in the table.
fn scan(s: &[u8], out: &mut [u8], table: &mut [u16])
    requires s_len_bound { (length s.now ≤ size_limit) × (length s.now ≤ length out.old) }
    requires whole { Whole body s.now × (buckets + 2 + length s.now ≤ length table.old) }
    ensures { out.new ≡ renumber_bytes body s.now ++ drop (length s.now) out.old }
{
    table::empty(table, 0, bundle::BUCKETS);
    table::enter(table, 0, bundle::BUCKETS, 0, 0);
    let mut next = 1;
    let mut left = Parts(0, 0, 0);
    let mut at = 0;
    while at < s.len() {
        let named = name_due(left);
        left = behind_next(left, s[at]);
        if named {
            next = put_name(s, out, table, at, next);
            at += 2;
        } else {
            out[at] = s[at];
            at += 1;
        }
    }
}

// Writes the bundle with its names renumbered to the first places of `out`, with a lent list of places: first for the definitions, then
// for the names.
fn renumber_in(bundle: &[u8], places: &mut [u16], out: &mut [u8]) -> Result<usize, Refusal>
    requires { (places_end ≤ length places.old) × (length bundle.now ≤ size_limit → buckets + 2 + length bundle.now ≤ length places.old) }
    ensures { Call (renumbering bundle.now) out.old out.new (answer_meant result) }
{
    acceptance::open(bundle, places)?;
    if out.len() < bundle.len() {
        return Err(Refusal::NoRoom);
    }
    scan(bundle, out, places);
    Ok(bundle.len())
}

// As many places as the names of any bundle may need.
const NAME_PLACES: usize = bundle::BUCKETS + 2 + bundle::BYTE_LIMIT;

// Writes the bundle with its names renumbered to the first places of `out`. A short bundle needs no more places for its names than for its
// definitions, and is not worth the clearing of more.
pub fn renumber(bundle: &[u8], out: &mut [u8]) -> Result<usize, Refusal>
    ensures { Call (renumbering bundle.now) out.old out.new (answer_meant result) }
{
    if bundle.len() <= bundle::SHORT_BYTES {
        let mut places = [0u16; bundle::PLACES];
        return renumber_in(bundle, &mut places, out);
    }
    let mut places = [0u16; NAME_PLACES];
    renumber_in(bundle, &mut places, out)
}
