// Runs the chain call on bundles at the limits, and writes what it answers.
// A line has the number of edges, how far the names on a path stand apart, the two names, the number of places lent, and the
// answer: `refused` and a number, or how many names the chain has, of how many names the edges were followed, the chain's first name, its
// last, and what stands behind it. On a path the names followed are all of the chain but the last; where there is no chain, all from
// FROM to the end of the path, which is FROM alone where that has no edge.
#![tactic(auto)]

ghost use Rattle.std.specs.Prelude.{◌+◌, ◌*◌, ◌≤◌, length};

use refusal::Refusal;
use search_from::Listed;
use std::io;

// Writes a number of two bytes, low byte first.
fn put(s: &mut [u8], at: usize, x: u16)
    requires { at + 2 ≤ length s.old }
{
    s[at..at + 2].copy_from_slice(&x.to_le_bytes());
}

// Writes the header of a bundle with no definition and so many edges.
fn header(s: &mut [u8], edges: u16)
    requires { 7 ≤ length s.old }
{
    s[0] = 0x60;
    put(s, 1, 0);
    put(s, 3, edges);
    put(s, 5, 0);
}

// Writes an edge at `at`.
fn edge(s: &mut [u8], at: usize, from: u16, to: u16)
    requires { at + 6 ≤ length s.old }
{
    s[at] = 0x62;
    put(s, at + 1, from);
    put(s, at + 3, to);
    s[at + 5] = 0;
}

// Writes a bundle whose edges lead from 0 along names that stand `apart`.
fn path(s: &mut [u8], count: usize, apart: u16)
    requires { (count ≤ 1024) × (7 + 6 * count ≤ length s.old) }
{
    header(s, count as u16);
    let mut name = 0u16;
    for i in 0..count {
        let next = name.wrapping_add(apart);
        edge(s, 7 + 6 * i, name, next);
        name = next;
    }
}

// Writes the name at a place, if there is one.
fn tell_name(rt: &impl Print, list: &[u16], i: usize) -> io::Result<()> {
    match list.get(i) {
        Some(name) => print!(rt; "{name} "),
        None => Ok(()),
    }
}

// Writes an answer, and the list that it left.
fn tell(rt: &impl Print, answer: Result<Listed, Refusal>, list: &[u16]) -> io::Result<()> {
    match answer {
        Ok(listed) => {
            let n = listed.names;
            print!(rt; "{n} {} ", listed.followed)?;
            tell_name(rt, list, 0)?;
            if n != 0 {
                tell_name(rt, list, n - 1)?;
            }
            tell_name(rt, list, n)?;
        }
        Err(refusal) => {
            print!(rt; "refused {} ", u8::from(refusal))?;
            tell_name(rt, list, 0)?;
        }
    }
    println!(rt; "")
}

// Looks for the chain on a path, with so many places lent, each of which holds 7.
fn on_path(
    rt: &impl Print,
    count: usize,
    apart: u16,
    from: u16,
    to: u16,
    size: usize,
) -> io::Result<()>
    requires { (count ≤ 1024) × (size ≤ 1026) }
{
    print!(rt; "{count} {apart} {from} {to} {size} ")?;
    let mut s = [0u8; 6151];
    path(&mut s, count, apart);
    let bundle = &s[..7 + 6 * count];
    let mut list = [7u16; 1026];
    let answer = find_chain::find_layout_dependency_chain(bundle, from, to, &mut list[..size]);
    tell(rt, answer, &list)
}

fn main(rt: HostRuntime) -> io::Result<()> {
    on_path(&rt, 1024, 1, 0, 1024, 1026)?;
    on_path(&rt, 1024, 1, 0, 1024, 1025)?;
    on_path(&rt, 1024, 1, 0, 1024, 1024)?;
    on_path(&rt, 1024, 63, 0, 64512, 1025)?;
    on_path(&rt, 1024, 1, 1, 0, 1025)?;
    on_path(&rt, 255, 256, 0, 65280, 256)?;
    on_path(&rt, 255, 256, 256, 65280, 254)?;
    on_path(&rt, 63, 1024, 0, 64512, 64)?;
    on_path(&rt, 63, 1024, 0, 64512, 63)?;
    on_path(&rt, 65, 1000, 0, 65000, 66)?;
    on_path(&rt, 3, 5, 0, 4, 4)?;
    on_path(&rt, 3, 5, 9, 9, 1)?;
    on_path(&rt, 3, 5, 9, 9, 0)?;
    on_path(&rt, 0, 0, 1, 2, 0)
}
