// A tree of distinct numbers of 16 bits, each with its place by order of entry, in a slice from `base` on: for each the number itself and
// two links, one more than the place to which they lead, or 0. The search for a number goes by its bits, the lowest first, so that it takes
// 17 steps at most whatever the numbers are.
//
// Links are numbers and no `Option`, and the three values of a number no struct: they stand in the caller's places of 16 bits, behind
// others (no heap, fixed memory); an array of structs would be a second slice, lent through all that hand these places on. No struct holds
// the slice, `base` and `n`, and no slice begins at `base`: callers write other places of it between two calls, and their facts are of the
// whole. No trait has `place_of` and `enter` for this crate and table: no function takes either of the two.
#![tactic(auto)]

ghost use Rattle.std.specs.Prelude.{◌+◌, ◌*◌, ◌≤◌, ◌<◌, length};
ghost use Rattle.tree.specs.Tree.{Tree, EndOf, PlaceOf, Entered, Node};

// The place of `x` among the `n` numbers, or where it is none of them the link at which the search for it ends; `Err(None)` where there are
// no numbers.
fn search(t: &[u16], base: usize, n: usize, x: u16) -> Result<usize, Option<usize>>
    requires { Tree t.now base n }
    ensures { EndOf t.now base n x result }
{
    let mut k = 0;
    let mut bits = x;
    while k < n {
        let at = base + 3 * k;
        if t[at] == x {
            return Ok(k);
        }
        let link = at + 1 + usize::from(bits % 2);
        let next = usize::from(t[link]);
        if next == 0 {
            return Err(Some(link));
        }
        k = next - 1;
        bits /= 2;
    }
    Err(None)
}

// The place of `x` among the `n` numbers, if it is one of them.
pub fn place_of(t: &[u16], base: usize, n: usize, x: u16) -> Option<usize>
    requires { Tree t.now base n }
    ensures { PlaceOf t.now base n x result }
{
    search(t, base, n, x).ok()
}

// Puts `x` behind the `n` numbers, with links that lead nowhere.
fn put(t: &mut [u16], base: usize, n: usize, x: u16)
    requires { base + 3 * n + 3 ≤ length t.old }
    ensures { Node t.old base n x t.new }
{
    let at = base + 3 * n;
    t[at] = x;
    t[at + 1] = 0;
    t[at + 2] = 0;
}

// The place of `x`, which is put behind the `n` numbers unless it is one of them.
pub fn enter(t: &mut [u16], base: usize, n: usize, x: u16) -> usize
    requires { Tree t.old base n × (base + 3 * n + 3 ≤ length t.old) × (n < 65535) }
    ensures { Entered t.old base n x result t.new }
{
    match search(t, base, n, x) {
        Ok(k) => k,
        Err(None) => {
            put(t, base, n, x);
            n
        }
        Err(Some(link)) => {
            t[link] = (n + 1) as u16;
            put(t, base, n, x);
            n
        }
    }
}
