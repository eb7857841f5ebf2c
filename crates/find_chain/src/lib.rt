// The call for one chain of a bundle, with the count of the names whose edges were followed.
#![tactic(auto)]

ghost use Rattle.std.specs.Prelude.{◌+◌, ◌*◌, ◌≤◌};
ghost use Rattle.chain.specs.Edges.{graph_at, HasEdges};
ghost use Rattle.search_from.specs.Listing.{Lists};
ghost use Rattle.find_chain.specs.ChainCall.{ChainCall};

use chain::Direction;
use refusal::Refusal;
use search_from::Listed;

// The chain over `count` edges that stand in the bytes from `at` on, with so many places for the prepared edges and for the search. It
// stays a function of its own where it is compiled, so that a search over few edges touches no page of the places for many.
#[inline(never)]
fn find_in<const EDGES: usize, const NUMBERS: usize>(
    bytes: &[u8],
    at: usize,
    count: usize,
    from: u16,
    to: u16,
    list: &mut [u16],
) -> Result<Listed, Refusal>
    requires has_edges { HasEdges bytes.now at count }
    requires room { (9 * count + 257 ≤ EDGES) × (2 * count + 1 ≤ NUMBERS) × (EDGES ≤ 65536) × (NUMBERS ≤ 65536) }
    ensures { Lists (graph_at bytes.now at count) from to list.old list.new result }
{
    let mut edges = [0u16; EDGES];
    chain::prepare(bytes, at, count, Direction::Back, &mut edges);
    search_from::find::<NUMBERS>(&edges, count, from, to, list)
}

// The chain from `from` to `to` over the edges of a bundle, into the first places of `list`. Few edges are not worth the clearing of places
// for many.
pub fn find_layout_dependency_chain(
    bytes: &[u8],
    from: u16,
    to: u16,
    list: &mut [u16],
) -> Result<Listed, Refusal>
    ensures { ChainCall from to bytes.now list.old list.new result }
{
    let mut places = [0u16; bundle::PLACES];
    let layout = acceptance::open(bytes, &mut places)?;
    let at = layout.edges_at;
    let edges = layout.edges;
    if chain::FEW_EDGES < edges {
        return find_in::<{ chain::PLACES }, { search_from::NUMBERS }>(
            bytes, at, edges, from, to, list,
        );
    }
    find_in::<{ chain::FEW_PLACES }, { search_from::FEW_NUMBERS }>(bytes, at, edges, from, to, list)
}
