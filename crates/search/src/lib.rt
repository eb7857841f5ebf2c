// The search for chains to one name over prepared edges: a search backwards from the name, which says how far each name that it marks is
// from it. It ends as soon as the name is marked whose chain is asked for, and goes on where another is asked for that is not. The chains
// are read off in read_chain, along hops that say where the chain of each name that is marked goes on.
// The slice that is lent has places that follow from the count of the edges:
//     0                     0 where no search was begun, 1 where one was, 2 where the hops are set for all that is marked
//     3 x + 1               how far the number x is from the name: one more than the fewest edges, and 0 where it is not marked
//     3 i + 2               entry i of the queue, a number
//     3 x + 3               the number that the chain of x goes on to
//     6 count + 1           how many entries the queue has
//     6 count + 2           the entry that is next
//     6 count + 3 and on    the list for a chain
// The state in place 0 and the 0 where a number is not marked are numbers, no enum and no `Option`: they stand in the caller's places of 16
// bits (no heap, fixed memory). It is one slice: with an array of structs for the numbers, the list and a struct of the state and the
// queue's ends would be lent beside it, by each of the 21 functions that hand `work` on, here and in six crates up to draft.
// The facts `Indexed` and `Lent`, the bounds of `work` and of numbers, and `edges` with `work` stand one by one: a struct with `Indexed` as
// its invariant was tried and took longer (chain), and one for `Lent`, which is of `edges`, `count` and `work`, would have that one in it.
#![tactic(auto)]

ghost use Rattle.std.specs.Prelude.{◌≡◌, ℕ, ◌+◌, ◌*◌, ◌≤◌, ◌<◌, length, get_or};
ghost use Rattle.chain.specs.Index.{Indexed};
ghost use Rattle.search.specs.Work.{far_in, entries_in, next_in, Paused, AfterEntry, Settled, Added, Measured, Lent};

// How many places are lent (two constants, as chain says): for a search over few edges, and over as many as a bundle can have.
pub const FEW_PLACES: usize = 7 * chain::FEW_EDGES + 7;

pub const PLACES: usize = 7 * bundle::EDGES + 7;

// Says of each of m numbers that it is not marked. What else stands at these numbers is free.
fn clear(work: &mut [u16], m: usize)
    requires { (m ≤ 2048) × (3 * m < length work.old) }
    ensures { (x : ℕ) → x < m → far_in work.new x ≡ 0 }
{
    work[1..3 * m + 1].fill(0);
}

// Adds the number `x`, so far off, to the `n` entries of the queue, unless it is marked. Returns how many there are.
fn add_new(work: &mut [u16], n: usize, x: u16, far: u16) -> usize
    requires { (3 * x + 1 < length work.old) × (n ≤ 2048) × (far_in work.old x ≡ 0 → 3 * n + 2 < length work.old) }
    ensures { Added work.old n x far work.new result }
{
    let at = 3 * x as usize + 1;
    if work[at] != 0 {
        return n;
    }
    work[at] = far;
    work[3 * n + 2] = x;
    n + 1
}

// Follows the edges that lead to the entry that is next, up to the first that leads from the number `until`: then the entry stays the next.
// Returns whether there is one.
fn follow(edges: &[u16], count: usize, until: u16, work: &mut [u16]) -> bool
    requires { Indexed count edges.now × (next_in count work.old < entries_in count work.old) × ((b : ℕ) × Paused count edges.now b work.old) }
    ensures { AfterEntry count edges.now until work.old work.new result }
{
    let entries = 6 * count + 1;
    let next = 6 * count + 2;
    let head = work[next];
    let x = work[3 * head as usize + 2] as usize;
    let far = work[3 * x + 1] + 1;
    let mut n = work[entries] as usize;
    let mut e = edges[3 * count + 1 + x] as usize;
    while e < count {
        let y = edges[3 * e + 1];
        n = add_new(work, n, y, far);
        if y == until {
            work[entries] = n as u16;
            return true;
        }
        e = edges[3 * e + 3] as usize;
    }
    work[entries] = n as u16;
    work[next] = head + 1;
    false
}

// Goes on with the search until the number `until` is marked or no entry is left.
pub fn explore(edges: &[u16], count: usize, until: u16, work: &mut [u16])
    requires { Indexed count edges.now × (7 * count + 7 ≤ length work.old) × ((to : ℕ) × Measured count edges.now to work.old) }
    ensures { ((to : ℕ) → Measured count edges.now to work.old → Measured count edges.now to work.new) × Settled count edges.now until work.new }
{
    while work[6 * count + 2] < work[6 * count + 1] {
        if follow(edges, count, until, work) {
            return;
        }
    }
}

// Begins the search to the name `to`, unless it was begun: only the number of the name is marked.
pub fn begin(edges: &[u16], count: usize, to: u16, work: &mut [u16])
    requires { Indexed count edges.now × Lent count edges.now to work.old }
    ensures { Lent count edges.now to work.new × (get_or work.new 0 0 ≡ 0 → ⊥) }
{
    if work[0] != 0 {
        return;
    }
    let m = edges[0] as usize;
    let entries = 6 * count + 1;
    clear(work, m);
    work[0] = 1;
    work[entries] = 0;
    work[6 * count + 2] = 0;
    if let Some(b) = table::place_of(edges, 5 * count + 1, chain::BUCKETS, m, to) {
        work[3 * b + 1] = 1;
        work[2] = b as u16;
        work[entries] = 1;
    }
}
