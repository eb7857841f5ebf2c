// A table of distinct numbers, each with its place by order of entry, in a slice from `base` on: so many heads, one for each bucket, then
// for each member the member itself and a link. A head, and a link, is one more than the place of the last member of the bucket, or of the
// last before this one; 0 ends the bucket. Numbers of 16 bits in b buckets: a bucket has at most 65,536 / b members, rounded up.
//
// Heads and links are numbers and no `Option`, and a member with its link no struct: they stand in the caller's places of 16 bits, behind
// others (no heap, fixed memory); an array of structs would be a second slice, lent through all that hand these places on. No struct holds
// the slice, `base` and `n`: chain and acceptance write other places of it between two calls. `base` stays, as chain's facts (`Indexed`)
// are of the whole slice of edges, with the table at `base`: with a slice from `base` on, each of its calls would move them to the part and
// back. Lookup and acceptance hand a part from its start on, renumber a slice of the table alone, all with `base` 0. No trait has
// `place_of` and `enter` for this crate and tree: no function takes either of the two.
#![tactic(auto)]

ghost use Rattle.std.specs.Prelude.{◌+◌, ◌*◌, ◌%◌, ◌≤◌, ◌<◌, ◌≡◌, length};
ghost use Rattle.table.specs.Table.{put, Within, Members, PlaceOf, Entered};

// The bucket of a number.
fn bucket_of(x: u16, buckets: usize) -> usize
    requires { 0 < buckets }
    ensures { (result ≡ x % buckets) × (result < buckets) }
{
    usize::from(x) % buckets
}

// The place of `x` among the first `n` members, if it is one of them.
pub fn place_of(t: &[u16], base: usize, buckets: usize, n: usize, x: u16) -> Option<usize>
    requires { Members t.now base buckets n }
    ensures { PlaceOf t.now base buckets n x result }
{
    let head = base + bucket_of(x, buckets);
    let mut e = usize::from(t[head]);
    while e != 0 {
        let at = base + buckets + 2 * (e - 1);
        if t[at] == x {
            return Some(e - 1);
        }
        e = usize::from(t[at + 1]);
    }
    None
}

// Puts `x` behind the first `n` members.
fn push(t: &mut [u16], base: usize, buckets: usize, n: usize, x: u16)
    requires { (0 < buckets) × (base + buckets + 2 * n + 2 ≤ length t.old) × (n < 65535) }
    ensures { t.new ≡ put t.old base buckets n x }
{
    let head = base + bucket_of(x, buckets);
    let last = t[head];
    let at = base + buckets + 2 * n;
    t[at] = x;
    t[at + 1] = last;
    t[head] = (n + 1) as u16;
}

// The place of `x`, which is put behind the first `n` members unless it is one of them.
pub fn enter(t: &mut [u16], base: usize, buckets: usize, n: usize, x: u16) -> usize
    requires { Members t.old base buckets n × (base + buckets + 2 * n + 2 ≤ length t.old) × (n < 65535) }
    ensures { Entered t.old base buckets n x result t.new }
{
    if let Some(r) = place_of(t, base, buckets, n, x) {
        return r;
    }
    push(t, base, buckets, n, x);
    n
}

// Empties the table: no head has a member.
pub fn empty(t: &mut [u16], base: usize, buckets: usize)
    requires { (0 < buckets) × (base + buckets ≤ length t.old) }
    ensures { Members t.new base buckets 0 × Within base (base + buckets) t.old t.new }
{
    t[base..base + buckets].fill(0);
}
