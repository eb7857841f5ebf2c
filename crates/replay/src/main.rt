// Replays stored cases: runs the report, the renumbering, the fixed size, the value or the chain with its count on each bundle and compares
// with the stored answer.
#![tactic(auto)]

use refusal::Refusal;
use std::io;
use std::io::Read;

// Whether the size, alignment and offsets of a definition are the answer.
fn measured(bundle: &[u8], definition: usize, due: &[u8]) -> bool {
    let mut list = [0u32; 8192];
    match offsets::fixed_size(bundle, definition, &mut list) {
        Ok(placement) => match list.get(..placement.offsets) {
            Some(offsets) => stored::layout_is(placement.size, placement.alignment, offsets, due),
            None => false,
        },
        Err(refusal) => stored::is_refusal(u8::from(refusal), due),
    }
}

// The same for the value of the size of a definition.
fn valued(bundle: &[u8], definition: usize, due: &[u8]) -> bool {
    match size_value::size_value(bundle, definition) {
        Ok(value) => stored::value_is(value, due),
        Err(refusal) => stored::is_refusal(u8::from(refusal), due),
    }
}

// The same for the count of followed names and the chain between two names.
fn followed(bundle: &[u8], from: u16, to: u16, due: &[u8]) -> bool {
    let mut list = [0u16; bundle::CHAIN_LIMIT];
    match find_chain::find_layout_dependency_chain(bundle, from, to, &mut list) {
        Ok(listed) => match list.get(..listed.names) {
            Some(names) => stored::chain_is(listed.followed as u64, names, due),
            None => false,
        },
        Err(refusal) => stored::is_refusal(u8::from(refusal), due),
    }
}

// What is asked of a bundle.
#[derive(Clone, Copy)]
pub enum Question {
    Report,
    Renumber,
    Size,
    Value,
    Followed,
}

// The question of this number.
fn question_of(kind: u8) -> Option<Question> {
    match kind {
        0 => Some(Question::Report),
        1 => Some(Question::Renumber),
        2 => Some(Question::Size),
        3 => Some(Question::Value),
        4 => Some(Question::Followed),
        _ => None,
    }
}

// The number that stands in two bytes before what is behind it.
fn split_number(bytes: &[u8]) -> Option<(u16, &[u8])> {
    let (number, behind) = bytes.split_at_checked(2)?;
    Some((bundle::u16_at(number, 0), behind))
}

// Whether what the call writes, or its refusal, is the answer.
fn written<F: FnOnce(&mut [u8]) -> Result<usize, Refusal>>(call: F, due: &[u8]) -> bool
    requires { F.IsAlwaysCallable call }
{
    let mut out = [0u8; 65536];
    let answer = call(&mut out).map_err(u8::from);
    stored::is_due(answer, &out, due)
}

// Whether the answer to the question is the one that is due. The number of a definition, and the names of a chain, stand before the bundle.
fn answered(question: Question, asked: &[u8], due: &[u8]) -> Option<bool> {
    Some(match question {
        Question::Report => written(|out| report::report(asked, out), due),
        Question::Renumber => written(|out| renumber::renumber(asked, out), due),
        Question::Size => {
            let (definition, bundle) = split_number(asked)?;
            measured(bundle, usize::from(definition), due)
        }
        Question::Value => {
            let (definition, bundle) = split_number(asked)?;
            valued(bundle, usize::from(definition), due)
        }
        Question::Followed => {
            let (from, behind) = split_number(asked)?;
            let (to, bundle) = split_number(behind)?;
            followed(bundle, from, to, due)
        }
    })
}

// What a case starts with: 0 for a report, 1 for a renumbering, 2 for a fixed size, 3 for a value or 4 for a count with its chain, and the
// lengths of what is asked and of the answer.
#[derive(Clone, Copy)]
pub struct Head {
    pub question: Option<Question>,
    pub asked: u16,
    pub due: u16,
}

// Reads the head of a case, if there is one more: its kind, and the two lengths in two bytes each.
fn read_head<R: Read>(input: &mut R) -> io::Result<Option<Head>> {
    let mut head = [0u8; 5];
    if input::read_full(input, &mut head)? < 5 {
        return Ok(None);
    }
    Ok(Some(Head {
        question: question_of(head[0]),
        asked: bundle::u16_at(&head, 1),
        due: bundle::u16_at(&head, 3),
    }))
}

// Reads bytes until the places are full; whether all were there.
fn read_all<R: Read>(input: &mut R, places: &mut [u8]) -> io::Result<bool> {
    Ok(input::read_full(input, places)? == places.len())
}

// Reads what is asked and the answer, and compares. A case of no known kind has another answer.
fn run_case<R: Read>(input: &mut R, head: Head) -> io::Result<bool> {
    let mut space = [0u8; 65536];
    let mut answer = [0u8; 65536];
    let asked = &mut space[..usize::from(head.asked)];
    let due = &mut answer[..usize::from(head.due)];
    if !read_all(input, asked)? || !read_all(input, due)? {
        return Ok(false);
    }
    let Some(question) = head.question else {
        return Ok(false);
    };
    Ok(answered(question, asked, due).unwrap_or(false))
}

// How many cases gave the answer due, and how many another one.
#[derive(Clone, Copy)]
pub struct Tally {
    pub same: u64,
    pub other: u64,
}

fn counted(tally: Tally, same: bool) -> Tally {
    if same {
        return Tally {
            same: tally.same.wrapping_add(1),
            other: tally.other,
        };
    }
    Tally {
        same: tally.same,
        other: tally.other.wrapping_add(1),
    }
}

fn print(rt: &impl Print, tally: Tally) -> io::Result<()> {
    println!(rt; "{} answers the same, {} others", tally.same, tally.other)
}

// The cases up to the last, but no more than 5,000.
fn run_cases<R: Read>(input: &mut R) -> io::Result<Tally> {
    let mut tally = Tally { same: 0, other: 0 };
    for _ in 0..5000 {
        let Some(head) = read_head(input)? else {
            return Ok(tally);
        };
        tally = counted(tally, run_case(input, head)?);
    }
    Ok(tally)
}

fn main(rt: HostRuntime) -> io::Result<()> {
    let tally = run_cases(&mut rt.stdin())?;
    print(&rt, tally)
}
