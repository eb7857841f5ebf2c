// The three validators.
#![tactic(auto)]

ghost use Rattle.std.specs.Prelude.{◌+◌, ◌*◌, ◌≤◌, ◌<◌, length};
ghost use Rattle.fields.specs.Shapes.{StructAt, EnumAt, ArrayAt};
ghost use Rattle.notes.specs.Parts as noted;
ghost use Rattle.cycles.specs.Shared.{bytes_of, Unchanged};
ghost use Rattle.validate.specs.Validating.{Among, Wrote, Room, violations_of};

use bundle::Opened;
use cycles::Checks;
use notes::Notes;
use validate::{Report, Site, Subject};

// Writes the violations of an enum: for each reference of its tag.
pub fn validate_enum_tag_constraints(
    checks: &mut Checks<'_>,
    subject: Subject,
    work: &mut [u16],
    report: &mut Report<'_>,
)
    requires room { 7 * checks.old.opened.layout.edges + 7 ≤ length work.old }
    requires among { Among (bytes_of checks.old) subject }
    requires enum_at { EnumAt 24 (bytes_of checks.old) subject.place.at × Room report.old (violations_of (bytes_of checks.old) subject) }
    ensures { Wrote (violations_of (bytes_of checks.old) subject) report.old report.new × Unchanged checks.old checks.new }
{
    let bytes = checks.opened.definitions.bytes;
    let references = validate::references_of(bytes, subject.place.at + 12, Site::Tag);
    validate::validate_references(checks, subject, references, work, report);
}

// Writes the violations of an array: for its element, then for each reference of its size.
pub fn validate_array_size_constraints(
    checks: &mut Checks<'_>,
    subject: Subject,
    work: &mut [u16],
    report: &mut Report<'_>,
)
    requires room { 7 * checks.old.opened.layout.edges + 7 ≤ length work.old }
    requires among { Among (bytes_of checks.old) subject }
    requires array_at { ArrayAt 24 (bytes_of checks.old) subject.place.at × Room report.old (violations_of (bytes_of checks.old) subject) }
    ensures { Wrote (violations_of (bytes_of checks.old) subject) report.old report.new × Unchanged checks.old checks.new }
{
    let Opened {
        definitions,
        layout,
        ..
    } = checks.opened;
    let bytes = definitions.bytes;
    let i = subject.number;
    let name = subject.place.name;
    let at = subject.place.at;
    let list = 6 * layout.edges + 3;
    let references = validate::references_of(bytes, at + 11, Site::Size);
    let check = checks::check_array_element_type_size(
        &mut checks.answers,
        name,
        bytes[at + 10],
        references.end,
        &mut work[list..],
    );
    validate::put_check(bytes, report, i, name, check, &work[list..]);
    validate::validate_references(checks, subject, references, work, report);
}

// Writes the violations of a struct: at most one for each of its `count` fields.
pub fn validate_struct_field_constraints(
    notes: &Notes<'_>,
    subject: Subject,
    count: usize,
    list: &mut [u16],
    report: &mut Report<'_>,
)
    requires among { Among (noted.bytes_of notes.now) subject }
    requires in_bounds { (3 ≤ length list.old) × StructAt 24 (noted.bytes_of notes.now) subject.place.at count × Room report.old (violations_of (noted.bytes_of notes.now) subject) }
    ensures { Wrote (violations_of (noted.bytes_of notes.now) subject) report.old report.new }
{
    let bytes = notes.opened.definitions.bytes;
    let i = subject.number;
    let name = subject.place.name;
    let mut seen = [None; bundle::DEFINITIONS];
    let mut next = subject.place.at + 12;
    for j in 0..count {
        let field = fields::field_at(bytes, next, bundle::DEPTH_INSIDE);
        let check = forward::check_field_layout_dependency(notes, &mut seen, name, j, field, list);
        if check.is_some() {
            validate::put_check(bytes, report, i, name, check, list);
        }
        next = field.next;
    }
}
