// Laws of the meaning that no code needs, each the contract of a function, so that one that is not proved fails this crate.
#![tactic(auto)]

ghost use Rattle.laws.specs.Equations.{SizeEquations, JaggedEquations};
ghost use Rattle.laws.specs.Exchanges.{Named, Exchanges};
ghost use Rattle.laws.specs.Examples.{Examples};
ghost use Rattle.laws.specs.Parts.{PartsTold};

// The size tests satisfy the Rust's own equations.
pub fn size_equations()
    ensures { SizeEquations }
{}

// So does the jagged test.
pub fn jagged_equations()
    ensures { JaggedEquations }
{}

// The names in the bytes of a bundle and of a report are those of the tree and of the violations.
pub fn names_in_bytes()
    ensures { Named }
{}

// Bytes are accepted exactly where they are those of a bundle, and an exchange of names changes nothing but the names.
pub fn exchanges()
    ensures { Exchanges }
{}

// Examples of reading, writing and renumbering hold.
pub fn examples()
    ensures { Examples }
{}

// A part is refused with one of 2 to 7, and the code's refusal of each has that number.
pub fn parts_told()
    ensures { PartsTold }
{}
