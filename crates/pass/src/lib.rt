// The pass over the definitions: each goes to its validator.
#![tactic(auto)]

ghost use Rattle.std.specs.Prelude.{◌+◌, ◌*◌, ◌≤◌, ◌<◌, length};
ghost use Rattle.meaning.specs.Violations.{violations};
ghost use Rattle.bundle.specs.Definitions.{bundle_of};
ghost use Rattle.fields.specs.Shapes.{StructAt};
ghost use Rattle.notes.specs.Notes.{Noted};
ghost use Rattle.cycles.specs.Shared.{bytes_of, places_of, Unchanged};
ghost use Rattle.validate.specs.Validating.{Among, Wrote, Room, violations_of, violations_at};

use cycles::Checks;
use fields::Shape;
use notes::Notes;
use validate::{Report, Subject};

// Writes the violations of a struct, which needs no more of the workspace than the list.
fn validate_struct(
    notes: &Notes<'_>,
    subject: Subject,
    count: usize,
    work: &mut [u16],
    report: &mut Report<'_>,
)
    requires among { Among notes.now.opened.definitions.bytes.now subject }
    requires edges_in_bounds { (7 * notes.now.opened.layout.edges + 7 ≤ length work.old) × StructAt 24 notes.now.opened.definitions.bytes.now subject.place.at count × Room report.old (violations_of notes.now.opened.definitions.bytes.now subject) }
    ensures { Wrote (violations_of notes.now.opened.definitions.bytes.now subject) report.old report.new }
{
    let list = 6 * notes.opened.layout.edges + 3;
    validators::validate_struct_field_constraints(notes, subject, count, &mut work[list..], report);
}

// Writes the violations of definition `i`: an enum, array or struct goes to its validator, other kinds to none.
fn validate_type(checks: &mut Checks<'_>, i: usize, work: &mut [u16], report: &mut Report<'_>)
    requires room { 7 * checks.old.opened.layout.edges + 7 ≤ length work.old }
    requires noted { Noted (bytes_of checks.old) (places_of checks.old) checks.old.opened.definitions.count }
    requires i_in_bounds { (i < checks.old.opened.definitions.count) × Room report.old (violations_at (bytes_of checks.old) (places_of checks.old) i) }
    ensures { Wrote (violations_at (bytes_of checks.old) (places_of checks.old) i) report.old report.new × Unchanged checks.old checks.new }
{
    let opened = checks.opened;
    let definitions = opened.definitions;
    let place = fields::place_of(&definitions, i);
    let subject = Subject { number: i, place };
    let shape = fields::shape_at(definitions.bytes, place.at, bundle::DEPTH_LIMIT);
    match shape {
        Shape::Struct(n) => {
            let notes = Notes { opened };
            validate_struct(&notes, subject, n, work, report);
        }
        Shape::Enum => {
            validators::validate_enum_tag_constraints(checks, subject, work, report);
        }
        Shape::Array => {
            validators::validate_array_size_constraints(checks, subject, work, report);
        }
        Shape::TypeRef(_) => {}
        Shape::Plain => {}
    }
}

// Writes the violations of all definitions, in order.
pub fn validate_layout_constraints(
    checks: &mut Checks<'_>,
    work: &mut [u16],
    report: &mut Report<'_>,
)
    requires room { 7 * checks.old.opened.layout.edges + 7 ≤ length work.old }
    requires noted { Noted (bytes_of checks.old) (places_of checks.old) checks.old.opened.definitions.count }
    requires in_bounds { Room report.old (violations (bundle_of (bytes_of checks.old))) }
    ensures { Wrote (violations (bundle_of (bytes_of checks.old))) report.old report.new × Unchanged checks.old checks.new }
{
    let count = checks.opened.definitions.count;
    for i in 0..count {
        validate_type(checks, i, work, report);
    }
}
