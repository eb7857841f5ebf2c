// A report written where there is room for it.
#![tactic(auto)]

ghost use Rattle.std.specs.Prelude.{◌+◌, ◌*◌, ◌≤◌, length};
ghost use Rattle.meaning.specs.Calls.{Call};
ghost use Rattle.meaning.specs.Calls as calls;
ghost use Rattle.meaning.specs.Report.{report};
ghost use Rattle.meaning.specs.Violations.{violations};
ghost use Rattle.bundle.specs.Definitions.{bundle_of};
ghost use Rattle.bundle.specs.Opened.{answer_meant};
ghost use Rattle.notes.specs.Notes.{Noted};
ghost use Rattle.cycles.specs.Shared.{bytes_of, places_of};

use cycles::Checks;
use refusal::Refusal;
use validate::Report;

// The bytes of a draft.
const DRAFT: usize = 1024;

// The bytes of a report's head: a byte of its own, and how many violations there are.
const HEAD: usize = 3;

// Writes the report, if there is room for all of it. A first run writes into a buffer of its own and counts, so that a refusal leaves
// the places as they are. A report that fits there is copied; a longer one is written by a second run.
pub fn write_report(
    checks: &mut Checks<'_>,
    work: &mut [u16],
    out: &mut [u8],
) -> Result<usize, Refusal>
    requires room { 7 * checks.old.opened.layout.edges + 7 ≤ length work.old }
    requires noted { Noted (bytes_of checks.old) (places_of checks.old) checks.old.opened.definitions.count }
    requires few { length (violations (bundle_of (bytes_of checks.old))) ≤ 65535 }
    ensures { Call (calls.result (report (bundle_of (bytes_of checks.old)))) out.old out.new (answer_meant result) }
{
    let mut draft = [0u8; DRAFT];
    let mut counted = Report {
        out: &mut draft,
        at: HEAD,
        count: 0,
    };
    pass::validate_layout_constraints(checks, work, &mut counted);
    let end = counted.at;
    if out.len() < end {
        return Err(Refusal::NoRoom);
    }
    let second = violation::put_byte(out, 0, 0x70);
    violation::put_two(out, second, counted.count as u16);
    if end <= DRAFT {
        violation::put_bytes(out, HEAD, &draft[HEAD..end]);
        return Ok(end);
    }
    let mut written = Report {
        out,
        at: HEAD,
        count: 0,
    };
    pass::validate_layout_constraints(checks, work, &mut written);
    Ok(written.at)
}
