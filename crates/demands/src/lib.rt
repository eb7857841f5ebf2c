// The three demands are stated in specs/, and what follows for every call is in proofs/. A law of this crate that a function cites, here
// or in `demanded`, cannot go unproved.
#![tactic(auto)]

ghost use Rattle.demands.specs.Demands.{OneChain};
ghost use Rattle.demands.specs.Idle.{Idle};
ghost use Rattle.demands.specs.Marked.{Marked};

// There is one chain.
pub fn one_chain()
    ensures { OneChain }
{}

// The idle versions do not meet the demands.
pub fn idle()
    ensures { Idle }
{}

// The marked examples hold.
pub fn marked()
    ensures { Marked }
{}
