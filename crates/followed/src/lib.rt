// The count of the names whose edges a search follows: its meaning, and laws. One that is not proved fails this crate.
#![tactic(auto)]

ghost use Rattle.followed.specs.Laws.{Counts};
ghost use Rattle.followed.specs.Examples.{Examples};

// The meaning counts the names that the sentences say, and the laws of the count hold.
pub fn counts()
    ensures { Counts }
{}

// The counts of examples hold.
pub fn examples()
    ensures { Examples }
{}
