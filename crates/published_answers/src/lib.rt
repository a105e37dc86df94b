// Demand 2 of the answers of the three machines, in the terms of document 004 (specs/Answers.antt, `DemandTwo`). No code needs it: the one function
// here counts the figures.

#![tactic(auto)]

ghost use Rattle.std.specs.Prelude.{◌≡◌};

// Figures 4, 5 and 6: one for each machine.
pub fn figures() -> u64
    ensures { result ≡ 3 }
{
    3
}
