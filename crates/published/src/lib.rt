// The published judgments (specs/), and the proof that the machines of crate `schedule` are theirs (proofs/). No code needs them: the one function
// here counts the rules that specs/Judgments.antt states.

#![tactic(auto)]

ghost use Rattle.std.specs.Prelude.{◌≡◌, ◌+◌};

// The rules of Figures 4, 5 and 6 together: two, three and three.
pub fn rules() -> u64
    ensures { result ≡ 2 + 3 + 3 }
{
    8
}
