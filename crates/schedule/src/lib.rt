// The counts that a machine carries, each of a type of its own. 01: "Credits, fuel, work and span are separate counts, and none may stand
// in for another". Their sums are those of the cost algebra of spans (specs/Algebra.antt) and of the machine (specs/Machine.antt).

#![tactic(auto)]

ghost use Rattle.std.specs.Prelude.{◌≡◌, ◌+◌, ◌*◌, ◌≤◌, ◌<◌, ◌^◌, max, leb};

// The transitions of the running machine since it started.
#[derive(Clone, Copy)]
pub struct Credits(pub u64);

// Kept: no plainer, because a trait for what `Credits` and `Span` have alike, `none` and `one_more`, needs an impl for each of them, with the same two
// bodies and a ghost member for its count: more lines than the four functions have.
impl Credits {
    // At a start, and again at a promotion, at the left's arrival and at the join.
    pub fn none() -> Self
        ensures { result.0 ≡ 0 }
    {
        Credits(0)
    }

    // One transition more. Credits are never more than the transitions made.
    pub fn one_more(self) -> Self
        requires { self.0 < 2 ^ 60 }
        ensures { result.0 ≡ self.0 + 1 }
    {
        Credits(self.0 + 1)
    }

    // Is a promotion due, where a frame can be promoted?
    pub fn reach(self, period: u64) -> bool
        ensures { result ≡ leb period self.0 }
    {
        period <= self.0
    }
}

// The transitions that a run may make.
#[derive(Clone, Copy)]
pub struct Fuel(pub u64);

// The span of a graph.
#[derive(Clone, Copy)]
pub struct Span(pub u64);

impl Span {
    // The empty graph's.
    pub fn none() -> Self
        ensures { result.0 ≡ 0 }
    {
        Span(0)
    }

    // One transition more.
    pub fn one_more(self) -> Self
        requires { self.0 < 2 ^ 60 }
        ensures { result.0 ≡ self.0 + 1 }
    {
        Span(self.0 + 1)
    }

    // A join: what came before the fork, then τ and the larger of the two branches.
    pub fn joined(self, tau: u64, left: Span, right: Span) -> Self
        requires { (self.0 < 2 ^ 60) × (tau ≤ 10000) × (left.0 < 2 ^ 60) × (right.0 < 2 ^ 60) }
        ensures { result.0 ≡ self.0 + (tau + max left.0 right.0) }
    {
        Span(self.0 + (tau + left.0.max(right.0)))
    }
}

// The work of a graph.
#[derive(Clone, Copy)]
pub struct Work(pub u64);

impl Work {
    // A run's, by its counts alone (specs/Demand.antt, `WorkCounted`).
    pub fn of(transitions: u64, tau: u64, forks: u64) -> Self
        requires { (transitions ≤ 100000000) × (tau ≤ 10000) × (forks ≤ 1000000000) }
        ensures { result.0 ≡ transitions + tau * forks }
    {
        Work(transitions + tau * forks)
    }
}
