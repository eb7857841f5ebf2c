// The report of a bundle that is opened: its edges are prepared, and its violations written.
#![tactic(auto)]

ghost use Rattle.std.specs.Prelude.{◌≡◌, false, ◌+◌, ◌*◌, ◌≤◌, length};
ghost use Rattle.meaning.specs.Violations.{violations};
ghost use Rattle.meaning.specs.Calls.{Call};
ghost use Rattle.meaning.specs.Calls as calls;
ghost use Rattle.meaning.specs.Circle.{circles};
ghost use Rattle.meaning.specs.Report.{report};
ghost use Rattle.bundle.specs.Definitions.{bundle_of};
ghost use Rattle.bundle.specs.Opened.{answer_meant};

use bundle::Opened;
use chain::Direction;
use cycles::Checks;
use notes::Notes;
use refusal::Refusal;
use size_tests::TestAnswers;

// The violations of a bundle can be counted in 16 bits, since each of its bytes is below 256; its bytes stand apart here, as a field of a
// struct has no such fact.
fn has_few_violations(bytes: &[u8], notes: &Notes<'_>)
    requires { bytes.now ≡ notes.now.opened.definitions.bytes.now }
    ensures { length (violations (bundle_of bytes.now)) ≤ 65535 }
{}

// The report of an opened bundle, with lists of these lengths for its prepared edges and a search: at most 65,536, which asks no more of a
// caller, since by `LayoutOf` a bundle has 1,024 edges at most.
pub fn report_in<const EDGES: usize, const WORK: usize>(
    notes: &Notes<'_>,
    out: &mut [u8],
) -> Result<usize, Refusal>
    requires room { (9 * notes.now.opened.layout.edges + 257 ≤ EDGES) × (7 * notes.now.opened.layout.edges + 7 ≤ WORK) × (EDGES ≤ 65536) × (WORK ≤ 65536) }
    requires acyclic { circles (bundle_of notes.now.opened.definitions.bytes.now) ≡ false }
    ensures { Call (calls.result (report (bundle_of notes.now.opened.definitions.bytes.now))) out.old out.new (answer_meant result) }
{
    let mut edges = [0u16; EDGES];
    let mut work = [0u16; WORK];
    let Opened {
        definitions,
        layout,
        ..
    } = notes.opened;
    has_few_violations(definitions.bytes, notes);
    chain::prepare(
        definitions.bytes,
        layout.edges_at,
        layout.edges,
        Direction::Forth,
        &mut edges,
    );
    let mut checks = Checks {
        opened: notes.opened,
        edges: &edges,
        answers: TestAnswers::new(&definitions),
    };
    draft::write_report(&mut checks, &mut work, out)
}
