// The references of one definition, gone through one by one, and the record of a violation written.
#![tactic(auto)]

ghost use Rattle.std.specs.Prelude.{◌≡◌, [], ℕ, ◌+◌, ◌*◌, ◌≤◌, ◌<◌, length, get_or};
ghost use Rattle.meaning.specs.Limits.{definition_limit};
ghost use Rattle.meaning.specs.Lists.{push};
ghost use Rattle.meaning.specs.ReadExpr.{read_expr};
ghost use Rattle.bundle.specs.View.{Reads};
ghost use Rattle.bundle.specs.Definitions.{bundle_of};
ghost use Rattle.search.specs.Work.{list_in, Lent, IfWanted};
ghost use Rattle.sizes.specs.Paths.{Fit};
ghost use Rattle.sizes.specs.Scan.{path_at, references_from, Fits};
ghost use Rattle.violation.specs.Records.{padded};
ghost use Rattle.containers.specs.Containers.{Known};
ghost use Rattle.checks.specs.Checks.{violation_of, FindingFits, Fitting, Checked};
ghost use Rattle.cycles.specs.Shared.{bytes_of, Unchanged};
ghost use Rattle.validate.specs.Validating.{is_tag, Among, Recorded, ReferencesAt, Wrote, Room, record_with, path_of_two, check_reference, found_in};

use bundle::Opened;
use checks::Finding;
use containers::Container;
use cycles::{Asked, Checks};
use fields::Place;
use violation::{Kind, Path, Record};

// A report while it is written: its bytes, the place behind what is written, and the count of its violations.
#[derive(Drop)]
pub struct Report<'a> {
    pub out: &'a mut [u8],
    pub at: usize,
    pub count: usize,
}

// A definition: its number, and its name and where its type starts. That the bundle has it is a clause (`Among`), since no bytes are here.
#[derive(Clone, Copy)]
pub struct Subject {
    pub number: usize,
    pub place: Place,
}

// Where references are: in the tag of an enum or in the size of an array.
#[derive(Clone, Copy)]
pub enum Site {
    Tag,
    Size,
}

// The references of a definition, in the records from `at` to `end`.
#[derive(Clone, Copy)]
pub struct References {
    pub site: Site,
    pub at: usize,
    pub end: usize,
}

// The references in the expression that was read at `at`.
pub fn references_of(s: &[u8], at: usize, site: Site) -> References
    requires { Reads (read_expr 23 s.now at) }
    ensures { ReferencesAt s.now at site result }
{
    let end = bundle::expr_at(s, at, bundle::DEPTH_INSIDE).unwrap_or(at);
    References { site, at, end }
}

// Name k of the n names of the reference at `path`, and 0 where there are no more: the record of document 01 has four, each two bytes.
fn name_of(s: &[u8], path: usize, n: usize, k: usize) -> u16
    requires { Fit s.now path × (n ≡ length (path_at s.now path)) × (k < 4) }
    ensures { result ≡ get_or (path_at s.now path) k 0 }
{
    if n <= k {
        return 0;
    }
    bundle::u16_at(s, path + 1 + 2 * k)
}

// The names of the reference at `path`.
fn read_path(s: &[u8], path: usize) -> Path
    requires { Fit s.now path }
    ensures { (result ≡ padded (path_at s.now path)) × (length (path_at s.now path) ≤ 4) }
{
    let n = sizes::path_length(s, path);
    Path {
        count: n as u8,
        names: [
            name_of(s, path, n, 0),
            name_of(s, path, n, 1),
            name_of(s, path, n, 2),
            name_of(s, path, n, 3),
        ],
    }
}

// The record of a violation with a written path.
fn written(s: &[u8], kind: Kind, path: usize) -> Record
    requires { Fit s.now path }
    ensures { (result ≡ record_with kind (padded (path_at s.now path))) × (length (path_at s.now path) ≤ 4) }
{
    Record {
        kind,
        path: read_path(s, path),
    }
}

// The record of a violation with a path of two names, or of none where they are 0, as the record of document 01 has them.
fn unwritten(kind: Kind, count: u8, first: u16, second: u16) -> Record
    ensures { result ≡ record_with kind (path_of_two count first second) }
{
    Record {
        kind,
        path: Path {
            count,
            names: [first, second, 0, 0],
        },
    }
}

// What the record of a violation says, and how many names its chain has.
fn record_of(s: &[u8], finding: Finding) -> (Record, usize)
    requires { (room : ℕ) × FindingFits s.now room finding }
    ensures { Recorded s.now finding result.0 result.1 }
{
    match finding {
        Finding::EnumForward(t, f) => (unwritten(Kind::EnumForward, 2, t, f), 3),
        Finding::EnumCycle(p, n) => (written(s, Kind::EnumCycle, p), n),
        Finding::ArrayCycle(p, n) => (written(s, Kind::ArrayCycle, p), n),
        Finding::FieldForward(p) => (written(s, Kind::FieldForward, p), 3),
        Finding::VariableElement => (unwritten(Kind::VariableElement, 0, 0, 0), 1),
        Finding::JaggedReference => (unwritten(Kind::JaggedReference, 0, 0, 0), 2),
        Finding::JaggedInline => (unwritten(Kind::JaggedInline, 0, 0, 0), 1),
        Finding::NestedJagged => (unwritten(Kind::NestedJagged, 0, 0, 0), 1),
    }
}

// Writes the record of what a check of definition `i` found, with the chain that stands in the list. Where it found nothing, nothing is
// written: the loops over references and fields do not call it then.
pub fn put_check(
    s: &[u8],
    report: &mut Report<'_>,
    i: usize,
    name: u16,
    check: Option<Finding>,
    list: &[u16],
)
    requires i_lt_definition_limit { (i < definition_limit) × Fitting s.now (length list.now) check }
    requires room { Room report.old (push (violation_of s.now i name list.now check) []) }
    ensures { Wrote (push (violation_of s.now i name list.now check) []) report.old report.new }
{
    let Some(finding) = check else {
        return;
    };
    let (found, n) = record_of(s, finding);
    report.at = violation::put_violation(report.out, report.at, i as u16, name, found, &list[..n]);
    report.count += 1;
}

// The check of one reference of an enum's tag, or of an array's size.
fn check_reference(
    checks: &mut Checks<'_>,
    known: &mut [Option<Container>; bundle::DEFINITIONS],
    site: Site,
    asked: Asked,
    work: &mut [u16],
) -> Option<Finding>
    requires lent { Lent checks.old.opened.layout.edges checks.old.edges.now asked.name work.old }
    requires fit { Fit (bytes_of checks.old) asked.path × Known (bytes_of checks.old) asked.name known.old }
    ensures { IfWanted asked.wanted (list_in checks.old.opened.layout.edges work.new) (λ list. Checked (bytes_of checks.old) asked.name list result (λ i. check_reference (is_tag site) (bundle_of (bytes_of checks.old)) i asked.name (path_at (bytes_of checks.old) asked.path))) × Lent checks.old.opened.layout.edges checks.old.edges.now asked.name work.new × Known (bytes_of checks.old) asked.name known.new × Unchanged checks.old checks.new }
{
    match site {
        Site::Tag => cycles::check_enum_tag_layout_cycle(checks, known, asked, work),
        Site::Size => {
            let Opened {
                definitions,
                layout,
                ..
            } = checks.opened;
            let edges = checks.edges;
            cycles::check_array_size_layout_cycle(definitions.bytes, layout, asked, edges, work)
        }
    }
}

// Checks each of the references, and writes what is found. All searches here are to one name, for which one is made. A chain is read off
// only where it is written.
pub fn validate_references(
    checks: &mut Checks<'_>,
    subject: Subject,
    references: References,
    work: &mut [u16],
    report: &mut Report<'_>,
)
    requires room { 7 * checks.old.opened.layout.edges + 7 ≤ length work.old }
    requires among { Among (bytes_of checks.old) subject }
    requires end_in_bounds { (references.end ≤ length (bytes_of checks.old)) × Fits (bytes_of checks.old) (references_from (bytes_of checks.old) references.at references.end) × Room report.old (found_in (bytes_of checks.old) subject references) }
    ensures { Wrote (found_in (bytes_of checks.old) subject references) report.old report.new × Unchanged checks.old checks.new }
{
    let Opened {
        definitions,
        layout,
        ..
    } = checks.opened;
    let bytes = definitions.bytes;
    let i = subject.number;
    let name = subject.place.name;
    let end = references.end;
    let list = 6 * layout.edges + 3;
    let mut known = [None; bundle::DEFINITIONS];
    work[0] = 0;
    let mut next = references.at;
    while next < end {
        let Some((path, after)) = checks::reference_at(bytes, next, end) else {
            return;
        };
        let asked = Asked {
            name,
            path,
            wanted: report.at < report.out.len(),
        };
        let check = check_reference(checks, &mut known, references.site, asked, work);
        if check.is_some() {
            put_check(bytes, report, i, name, check, &work[list..]);
        }
        next = after;
    }
}
