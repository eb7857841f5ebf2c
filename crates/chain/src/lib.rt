// A bundle's edges, prepared for searches in one slice: as they are, for a search backwards, or each turned round, for one forwards. The
// places of the slice follow from the count of the edges:
//     0                     how many names the edges have; these are numbered from 0, by first appearance
//     3 e + 1, + 2, + 3     of edge e: the number that it leads from, the number that it leads to, and the next edge that leads to the same
//     3 count + 1 + x       of the number x: the first edge that leads to it
//     5 count + 1 and on    the names, a table with `BUCKETS` buckets
// The count stands where there is no such edge: a number and no `Option`, in the caller's places of 16 bits (no heap, fixed memory).
// It is one slice: with an array of structs for the edges, the first edges and the table would be lent beside it, by each of the 18
// functions that take `edges` (here and in search, search_from, read_chain and cycles), and each contract would say of three slices what it
// says of one.
// No struct holds the places and the count: tried, with the ghost field `Indexed`, and a search took 7 parts in 100 longer.
#![tactic(auto)]

ghost use Rattle.std.specs.Prelude.{◌≡◌, ◌+◌, ◌*◌, ◌≤◌, ◌<◌, length};
ghost use Rattle.chain.specs.Edges.{graph_at, turn_of, turned, HasEdges};
ghost use Rattle.chain.specs.Index.{Numbering, Same, Cleared, Tied, Linking, Prepared};

// The buckets of the table of names.
pub const BUCKETS: usize = 256;

// Few edges.
pub const FEW_EDGES: usize = 64;

// How many places the prepared edges have: of few, and of as many as a bundle can have. Two constants, here and where other lists are for
// few and for many: a constant calls no function in Rattle, no `const fn` either, and a const argument is no expression.
pub const FEW_PLACES: usize = 9 * FEW_EDGES + BUCKETS + 1;

pub const PLACES: usize = 9 * bundle::EDGES + BUCKETS + 1;

// Which way prepared edges lead.
#[derive(Clone, Copy)]
pub enum Direction {
    // As they are.
    Forth,
    // Each the other way round.
    Back,
}

// The edges in the bytes are told by a place and a count, and that they stand there is a clause (`HasEdges`): a struct of the three with
// that fact would be made for two calls, of find_chain and report_opened, and taken apart by the next function, which reads by place.

// Numbers the names of `count` edges, and writes the numbers of their ends. Returns how many names there are.
fn number(bytes: &[u8], at: usize, count: usize, direction: Direction, edges: &mut [u16]) -> usize
    requires has_edges { HasEdges bytes.now at count }
    requires count_in_bounds { 9 * count + 257 ≤ length edges.old }
    ensures { Numbering bytes.now at (turn_of direction) (2 * count) count edges.new result }
{
    let names = 5 * count + 1;
    let turn = direction as usize;
    table::empty(edges, names, BUCKETS);
    let mut m = 0;
    for i in 0..2 * count {
        let name = bundle::u16_at(bytes, at + 6 * (i / 2) + 2 * ((i + turn) % 2) + 1);
        let r = table::enter(edges, names, BUCKETS, m, name);
        m = m.max(r + 1);
        edges[3 * (i / 2) + i % 2 + 1] = r as u16;
    }
    m
}

// Says of each number that no edge leads to it.
fn clear(edges: &mut [u16], count: usize)
    requires { (5 * count < length edges.old) × (count ≤ 1024) }
    ensures { Cleared count (2 * count) edges.new × Same count edges.old edges.new }
{
    edges[3 * count + 1..5 * count + 1].fill(count as u16);
}

// Links the edges that lead to each number, from the last edge to the first, so that the first stands at the head.
fn link(edges: &mut [u16], count: usize)
    requires { Tied count edges.old × Cleared count (2 * count) edges.old }
    ensures { Linking count edges.old 0 edges.new }
{
    for e in (0..count).rev() {
        let to = edges[3 * e + 2] as usize;
        let first = 3 * count + 1 + to;
        edges[3 * e + 3] = edges[first];
        edges[first] = e as u16;
    }
}

// Prepares `count` edges that stand in the bytes from `at` on for searches. What the slice holds before is free.
pub fn prepare(bytes: &[u8], at: usize, count: usize, direction: Direction, edges: &mut [u16])
    requires has_edges { HasEdges bytes.now at count }
    requires count_in_bounds { 9 * count + 257 ≤ length edges.old }
    ensures { Prepared (turned (turn_of direction) (graph_at bytes.now at count)) count edges.new }
{
    let m = number(bytes, at, count, direction, edges);
    clear(edges, count);
    link(edges, count);
    edges[0] = m as u16;
}
