// The search for a chain from one name to another over prepared edges, each turned round: from the first name on, the edges of one name
// after another are followed, and it ends as soon as the other name is marked.
// The steps are no generic functions with those of the crates search and read_chain: what is written for a number differs, those pause and
// keep their queue's ends in the slice, and the chain is written forwards there: one function with closures for all that is no plainer.
#![tactic(auto)]

ghost use Rattle.std.specs.Prelude.{◌≡◌, List, map, ◌++◌, ℕ, suc, ◌+◌, ◌*◌, ◌≤◌, ◌<◌, length, drop};
ghost use Rattle.chain.specs.Edges.{turned};
ghost use Rattle.chain.specs.Index.{names_in, name_in, named, Indexed};
ghost use Rattle.search_from.specs.Queue.{leading, LeadingBelow};
ghost use Rattle.search_from.specs.Work.{long_in, before_in, Exploring, AfterEntry, Explored, Added};
ghost use Rattle.search_from.specs.Listing.{Lists};

use refusal::Refusal;

// How many numbers a search has, one more than names (two constants, as chain says): over few edges, and over as many as a bundle can have.
pub const FEW_NUMBERS: usize = 2 * chain::FEW_EDGES + 1;

pub const NUMBERS: usize = 2 * bundle::EDGES + 1;

// What a search says of the number x, and entry x of its queue, a number.
#[derive(Clone, Copy)]
struct Place {
    // How many names the chain of x has, 0 where x is not marked. An `Option` would take an arm for none in `follow`, which reads this of
    // numbers that are marked, and an `unwrap_or(0)` in `find`; `mark` and `explore` ask only whether x is marked.
    names: u16,
    // The number before x on its chain.
    before: u16,
    entry: u16,
}

// The answer: how many names the chain has, and of how many names the edges were followed. There are 0 names where there is no chain, as
// the call for C says it: with an `Option` each of the four that call would begin with `unwrap_or(0)` (layout_c, responses, replay,
// chain_cases).
#[derive(Clone, Copy)]
pub struct Listed {
    pub names: usize,
    pub followed: usize,
}

// Marks the number `y`, unless it is marked: it becomes entry `n` of the queue, with a chain of `long` names on which `x` stands before
// it. Returns how many entries there are.
fn mark(work: &mut [Place], n: usize, y: u16, x: u16, long: u16) -> usize
    requires { (y < length work.old) × (n ≤ 2048) × (long_in work.old y ≡ 0 → n < length work.old) }
    ensures { Added work.old n y x long work.new result }
{
    let place = &mut work[y as usize];
    if place.names != 0 {
        return n;
    }
    place.names = long;
    place.before = x;
    work[n].entry = y;
    n + 1
}

// Follows the edges from entry `head` of the queue of `len` entries, in order, up to one that leads to `to`. Returns how many entries
// there are then.
fn follow(
    edges: &[u16],
    count: usize,
    to: usize,
    head: usize,
    len: usize,
    work: &mut [Place],
) -> usize
    requires { Indexed count edges.now × (head < len) × (long_in work.old to ≡ 0) × ((a : ℕ) × Exploring count edges.now a work.old len head 0) }
    ensures { (a : ℕ) → Exploring count edges.now a work.old len head 0 → AfterEntry count edges.now a to work.new result head }
{
    let x = work[head].entry;
    let long = work[x as usize].names + 1;
    let mut n = len;
    let mut e = edges[3 * count + 1 + x as usize] as usize;
    while e < count {
        let y = edges[3 * e + 1];
        n = mark(work, n, y, x, long);
        if y as usize == to {
            return n;
        }
        e = edges[3 * e + 3] as usize;
    }
    n
}

// Searches from the number `from` until the number `to` is marked or no edge is left. Returns of how many names the edges were followed.
fn explore(edges: &[u16], count: usize, from: usize, to: usize, work: &mut [Place]) -> usize
    requires indexed { Indexed count edges.now × (2 * count + 1 ≤ length work.old) × ((x : ℕ) → long_in work.old x ≡ 0) }
    requires from_bound { (from < names_in edges.now) × (to ≤ names_in edges.now) × (from ≡ to → ⊥) }
    ensures { Explored count edges.now from to work.new result }
{
    let mut n = mark(work, 0, from as u16, from as u16, 1);
    let mut head = 0;
    // No `for`: the queue grows while it is gone through.
    while head < n {
        n = follow(edges, count, to, head, n, work);
        head += 1;
        if work[to].names != 0 {
            return head;
        }
    }
    n
}

// Writes the names on the chain of the number `x`, of which there are `n`, into the first places of the list, the last first.
fn fill(edges: &[u16], count: usize, x: usize, n: usize, work: &[Place], list: &mut [u16])
    requires indexed { Indexed count edges.now × (2 * count + 1 ≤ length work.now) × (n ≤ length list.old) }
    requires by_index { (k : ℕ) → n ≡ suc k → LeadingBelow (before_in work.now) (names_in edges.now) k x }
    ensures { ((k : ℕ) → n ≡ suc k → list.new ≡ map (name_in count edges.now) (leading (before_in work.now) k x) ++ drop n list.old) × (n ≡ 0 → list.new ≡ list.old) }
{
    let names = 5 * count + 1 + chain::BUCKETS;
    let mut y = x;
    for i in (0..n).rev() {
        list[i] = edges[names + 2 * y];
        y = work[y].before as usize;
    }
}

// The chain from a name to itself.
fn alone(name: u16, list: &mut [u16]) -> Result<Listed, Refusal>
    ensures { (count : ℕ) (edges : List ℕ) → Lists (turned 1 (named count edges)) name name list.old list.new result }
{
    if list.is_empty() {
        return Err(Refusal::NoRoom);
    }
    list[0] = name;
    Ok(Listed {
        names: 1,
        followed: 0,
    })
}

// `NUMBERS` is at most 65,536, which asks no more of a caller: by `Indexed` there are 1,024 edges at most, and 2,049 numbers do for these.
//
// The chain from `from` to `to` over `count` prepared edges, each turned round, into the first places of the list if it fits.
pub fn find<const NUMBERS: usize>(
    edges: &[u16],
    count: usize,
    from: u16,
    to: u16,
    list: &mut [u16],
) -> Result<Listed, Refusal>
    requires { Indexed count edges.now × (2 * count + 1 ≤ NUMBERS) × (NUMBERS ≤ 65536) }
    ensures { Lists (turned 1 (named count edges.now)) from to list.old list.new result }
{
    if from == to {
        return alone(from, list);
    }
    let m = edges[0] as usize;
    let names = 5 * count + 1;
    let Some(x) = table::place_of(edges, names, chain::BUCKETS, m, from) else {
        return Ok(Listed {
            names: 0,
            followed: 1,
        });
    };
    // A name that no edge has gets the number behind the last, so that the search needs no second test.
    let y = table::place_of(edges, names, chain::BUCKETS, m, to).unwrap_or(m);
    let nothing = Place {
        names: 0,
        before: 0,
        entry: 0,
    };
    let mut work = [nothing; NUMBERS];
    let followed = explore(edges, count, x, y, &mut work);
    let n = work[y].names as usize;
    if list.len() < n {
        return Err(Refusal::NoRoom);
    }
    fill(edges, count, y, n, &work, list);
    Ok(Listed { names: n, followed })
}
