// The chains to one name read off the search for them: where each chain goes on is said by hops, which are set when the first is read off.
// Facts, bounds and parameters stand one by one, for the reason that search gives.
#![tactic(auto)]

ghost use Rattle.std.specs.Prelude.{◌≡◌, map, ℕ, suc, ◌+◌, ◌*◌, ◌≤◌, ◌<◌, length, get_or, take};
ghost use Rattle.meaning.specs.Chain.{chain_of};
ghost use Rattle.chain.specs.Found.{Answers};
ghost use Rattle.chain.specs.Index.{names_in, name_in, named, Indexed};
ghost use Rattle.search.specs.Work.{far_in, hop_in, list_in, along, Settled, Hopped, Below, Sought, Lent, IfWanted};

// Says where the chain of each number goes on: along the first edge that leads to a number one edge nearer.
fn set_hops(edges: &[u16], count: usize, work: &mut [u16])
    requires indexed { Indexed count edges.now × (7 * count + 7 ≤ length work.old) }
    requires by_index { (x : ℕ) → x < names_in edges.now → far_in work.old x ≤ 2048 }
    ensures { Hopped count edges.now work.old 0 work.new }
{
    for e in (0..count).rev() {
        let from = edges[3 * e + 1] as usize;
        let to = edges[3 * e + 2] as usize;
        if work[3 * from + 1] == work[3 * to + 1] + 1 {
            work[3 * from + 3] = to as u16;
        }
    }
}

// Sets the hops for all that is marked, unless they are set.
fn with_hops(edges: &[u16], count: usize, work: &mut [u16])
    requires { Indexed count edges.now × ((to : ℕ) × Lent count edges.now to work.old) × (get_or work.old 0 0 ≡ 0 → ⊥) }
    ensures { ((to : ℕ) → Lent count edges.now to work.old → Sought count edges.now to work.new × Lent count edges.now to work.new) × ((x : ℕ) → far_in work.new x ≡ far_in work.old x) }
{
    if work[0] != 1 {
        return;
    }
    set_hops(edges, count, work);
    work[0] = 2;
}

// Writes the names along the hops from the number `x`, of which there are `n`, into the list.
fn fill(edges: &[u16], count: usize, x: usize, n: usize, work: &mut [u16])
    requires indexed { Indexed count edges.now × (7 * count + 7 ≤ length work.old) × (n ≤ count + 1) }
    requires by_index { ((to : ℕ) × Sought count edges.now to work.old) × (x < names_in edges.now) × (far_in work.old x ≡ n) }
    ensures { ((k : ℕ) → n ≡ suc k → take n (list_in count work.new) ≡ map (name_in count edges.now) (along (hop_in work.old) k x)) × Below count work.old work.new }
{
    let names = 5 * count + 1 + chain::BUCKETS;
    let mut y = x;
    for i in 0..n {
        work[6 * count + 3 + i] = edges[names + 2 * y];
        y = work[3 * y + 3] as usize;
    }
}

// Makes the search to the name `to` as far as the chain from the number `x` asks for: until `x` is marked where only the name itself is,
// and to its end where others are marked and `x` is not. So the edges to one entry at most are followed twice, and hops set twice at most.
fn ready(edges: &[u16], count: usize, x: usize, to: u16, work: &mut [u16])
    requires { Indexed count edges.now × Lent count edges.now to work.old × (x < names_in edges.now) }
    ensures { Lent count edges.now to work.new × (get_or work.new 0 0 ≡ 0 → ⊥) × Settled count edges.now x work.new }
{
    search::begin(edges, count, to, work);
    if work[3 * x + 1] != 0 {
        return;
    }
    if work[6 * count + 1] <= work[6 * count + 2] {
        return;
    }
    let until = if work[6 * count + 1] == 1 {
        x as u16
    } else {
        edges[0]
    };
    search::explore(edges, count, until, work);
    work[0] = 1;
}

// The chain from `from` to `to` over `count` prepared edges, into the list if it is wanted there. All calls with the same slice `work` are
// to one name, and each goes on with the search of those before it; place 0 of the slice is 0 before the first, and what else it holds is
// free. Whether it is wanted is known when the call runs: a function for each would put one more `if` in front of each call and each
// contract.
pub fn find(
    edges: &[u16],
    count: usize,
    from: u16,
    to: u16,
    wanted: bool,
    work: &mut [u16],
) -> Option<usize>
    requires { Indexed count edges.now × Lent count edges.now to work.old }
    ensures { IfWanted wanted (list_in count work.new) (λ list. Answers (chain_of (named count edges.now) from to) list result) × Lent count edges.now to work.new }
{
    if from == to {
        work[6 * count + 3] = from;
        return Some(1);
    }
    let m = edges[0] as usize;
    let x = table::place_of(edges, 5 * count + 1, chain::BUCKETS, m, from)?;
    ready(edges, count, x, to, work);
    let n = work[3 * x + 1] as usize;
    if n == 0 {
        return None;
    }
    if wanted {
        with_hops(edges, count, work);
        fill(edges, count, x, n, work);
    }
    Some(n)
}
