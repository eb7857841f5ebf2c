// Runs the cases on standard input through the reader, and writes each label with its answer.
#![tactic(auto)]

use refusal::Refusal;
use std::io;
use std::io::Read;

// Writes the answer and ends the line.
fn print(rt: &impl Print, answer: Result<usize, Refusal>) -> io::Result<()> {
    match answer {
        Ok(_) => println!(rt; "accepted"),
        Err(refusal) => println!(rt; "{}", u8::from(refusal)),
    }
}

// One case: the length of its label, the length of its bundle in two bytes, the label and the bundle. False where the input ends.
fn run_case<R: Read>(rt: &impl Print, input: &mut R, space: &mut [u8; 65536]) -> io::Result<bool> {
    let mut head = [0u8; 3];
    if input::read_full(input, &mut head)? < 3 {
        return Ok(false);
    }
    let label = &mut space[..usize::from(head[0])];
    input::read_full(input, label)?;
    rt.write_all(label)?;
    rt.write_all(b": ")?;
    let size = usize::from(bundle::u16_at(&head, 1));
    let bundle = &mut space[..size];
    input::read_full(input, bundle)?;
    print(rt, acceptance::accept(bundle))?;
    Ok(true)
}

fn main(rt: HostRuntime) -> io::Result<()> {
    let mut input = rt.stdin();
    let mut space = [0u8; 65536];
    for _ in 0..1000 {
        if !run_case(&rt, &mut input, &mut space)? {
            return Ok(());
        }
    }
    Ok(())
}
