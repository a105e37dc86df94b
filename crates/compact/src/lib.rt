// The registers of a run by one counter, and single steps by them.

#![tactic(auto)]

ghost use Rattle.std.specs.Prelude.{◌≡◌, true, ◌&&◌, ◌+◌, ◌<◌, ◌≤◌, ◌^◌, ltb, leb};
ghost use Rattle.moves.specs.Ready.{Framed, Paid, Opened};
ghost use Rattle.compact.specs.Compact.{full, step_of, limit_of, Paced, PacedBy, limited_of, compact_of, GoesWith, Answers, settled_of, Settles, Continues, Forkless, kept_by, freed_by, Transits, later_of, Small, Roomy};

use frames::Seat;
use moves::{Control, Plan, Registers, Step, Stopped};
use schedule::{Credits, Span};

// The registers of a run by one counter. Credits and span are told by the transitions since the running machine's start.
#[derive(Clone, Copy)]
pub struct Compact {
    pub control: Control,
    // The frames that are occupied, and the most that were at once.
    pub depth: usize,
    pub deepest: usize,
    // The oldest plain fork that awaits its left, or 4096.
    pub oldest: usize,
    pub transitions: u64,
    // The transitions at the running machine's start, and its span then.
    pub since: u64,
    pub before: Span,
    // Up to so many transitions there is fuel, and no promotion is due.
    pub limit: u64,
    pub forks: u64,
}

// What a free move changes in the cost graph, with its frame: a fork begins, by a promotion or promoted at its birth; its left graph ends; both end.
#[derive(Clone, Copy)]
pub enum Event {
    Fork(usize),
    Turn(usize),
    Join(usize),
}

// Why no stride is made: the limit is reached; a promotion is due; a fork that is promoted at its birth is next; a value arrives at a promoted
// fork, which awaits its left or its right.
#[derive(Clone, Copy)]
pub enum Pause {
    Limit,
    Promotion,
    Fork(Seat),
    Turn(u64, usize),
    Join(u64, usize),
}

// What a stride comes to: registers to go on with after transitions, or after a free move with its event; a pause; a value or a stop.
#[derive(Clone, Copy)]
pub enum Progress {
    Go(Compact),
    Free(Compact, Event),
    Paused(Pause),
    Value(u64),
    Halt(Stopped),
}

// The registers that compact ones stand for.
pub fn expand(g: Compact) -> Registers
    requires { (g.since ≤ g.transitions) × ((full g).span.0 < 2 ^ 60) }
    ensures { result ≡ full g }
{
    let made = g.transitions - g.since;
    Registers {
        control: g.control,
        depth: g.depth,
        oldest: g.oldest,
        credits: Credits(made),
        span: Span(g.before.0 + made),
        transitions: g.transitions,
        forks: g.forks,
        deepest: g.deepest,
    }
}

// The limit of a machine that started after so many transitions.
#[tactic(auto, using(std::proofs::lemmas::Bool::Decides::nat_tests), unfolding(crate::specs::Compact::limit_of))]
fn limit_of(plan: Plan, since: u64, oldest: usize) -> u64
    requires { since ≤ plan.fuel.0 }
    ensures { result ≡ limit_of plan since oldest }
{
    if oldest < moves::NO_FORK && plan.period < plan.fuel.0 - since {
        since + plan.period
    } else {
        plan.fuel.0
    }
}

// The same of the machine that g tells of, with this oldest fork: from the limit so far, which is the fuel, or no more than a period after the start.
// Kept: tried, and slower: by `limit_of` the compiler works the sums of the start out at the beginning of each free move, whether a fork follows or not
// (docs/DESIGN-PASS.md, "Speed").
fn limit_after(plan: Plan, g: Compact, oldest: usize) -> u64
    requires { (Paced plan g) × (g.since ≤ plan.fuel.0) }
    ensures { result ≡ limit_of plan g.since oldest }
{
    if oldest < moves::NO_FORK {
        g.limit - (g.limit - g.since).saturating_sub(plan.period)
    } else {
        plan.fuel.0
    }
}

// Registers made compact, with this limit.
fn limited(s: Registers, limit: u64) -> Compact
    requires { (s.credits.0 ≤ s.transitions) × (s.credits.0 ≤ s.span.0) }
    ensures { result ≡ limited_of s limit }
{
    Compact {
        control: s.control,
        depth: s.depth,
        oldest: s.oldest,
        transitions: s.transitions,
        since: s.transitions - s.credits.0,
        before: Span(s.span.0 - s.credits.0),
        limit,
        forks: s.forks,
        deepest: s.deepest,
    }
}

// Registers made compact.
fn pack(plan: Plan, s: Registers) -> Compact
    requires { (s.credits.0 ≤ s.transitions) × (s.transitions ≤ plan.fuel.0) × (s.credits.0 ≤ s.span.0) }
    ensures { result ≡ compact_of plan s }
{
    limited(s, limit_of(plan, s.transitions - s.credits.0, s.oldest))
}

// A step's answer, its registers made compact by `pack`.
#[tactic(auto, unfolding(crate::specs::Compact::GoesWith, crate::specs::Compact::Answers))]
fn answer<F: FnOnce(Registers) -> Compact>(step: Step, pack: F) -> Progress
    requires { GoesWith (F.pre pack) step }
    ensures { Answers (F.post pack) step result }
{
    match step {
        Step::Go(s) => Progress::Go(pack(s)),
        Step::Value(v) => Progress::Value(v),
        Step::Halt(h) => Progress::Halt(h),
    }
}

// A step's answer by compact registers.
pub fn settle(plan: Plan, step: Step) -> Progress
    requires { Settles plan step }
    ensures { result ≡ settled_of plan step }
{
    answer(step, |s| pack(plan, s))
}

// The same where the machine goes on, and its oldest fork may be another: its start is kept.
pub fn go_on(plan: Plan, g: Compact, step: Step) -> Progress
    requires { (Paced plan g) × (Settles plan step) × (Continues g step) }
    ensures { result ≡ settled_of plan step }
{
    answer(step, |s| limited(s, limit_after(plan, g, s.oldest)))
}

// The same where a machine begins and has no fork: its limit is the fuel.
pub fn restart(plan: Plan, step: Step) -> Progress
    requires { (Settles plan step) × (Forkless step) }
    ensures { result ≡ settled_of plan step }
{
    answer(step, |s| limited(s, plan.fuel.0))
}

// The same where the machine goes on and has the same oldest fork: its start and its limit are kept.
pub fn keep(g: Compact, step: Step) -> Progress
    ensures { result ≡ kept_by g step }
{
    answer(
        step,
        |s| Compact {
            control: s.control,
            depth: s.depth,
            oldest: s.oldest,
            transitions: s.transitions,
            forks: s.forks,
            deepest: s.deepest,
            ..g
        },
    )
}

// A step that was free, with its event.
#[tactic(auto, unfolding(crate::specs::Compact::freed_by))]
pub fn free(progress: Progress, event: Event) -> Progress
    ensures { result ≡ freed_by event progress }
{
    match progress {
        Progress::Go(g) => Progress::Free(g, event),
        other => other,
    }
}

// Can an operand of k transitions and so many more be made, with h frames more at once? An operand of 0 is not simple. The frames are there
// where so many were occupied before; where not, the steps that open them are made one by one, and raise the depth.
pub fn fits(g: Compact, k: u64, more: u64, h: usize) -> bool
    requires { (Small g) × (k ≤ 1000) × (more ≤ 1000) × (h ≤ 2) }
    ensures { result ≡ true → (0 < k) × Roomy g (k + more) h }
{
    0 < k && g.transitions + (k + more) <= g.limit && g.depth + h <= g.deepest
}

// The registers k transitions later.
pub fn later(g: Compact, control: Control, depth: usize, k: u64) -> Compact
    requires { (Small g) × (k ≤ 1000) }
    ensures { result ≡ later_of g control depth k }
{
    Compact {
        control,
        depth,
        transitions: g.transitions + k,
        ..g
    }
}

// A frame is opened, by one step.
pub fn open(
    ws: &mut [u64],
    locals: &[u64],
    plan: Plan,
    g: Compact,
    seat: Seat,
    kind: u64,
) -> Progress
    requires { (Framed ws.old locals.now (full g) seat) × (Paced plan g) × (Paid plan (full g)) }
    ensures { (Opened ws.old ws.new locals.now plan (full g) seat kind g.oldest (step_of result)) × (PacedBy plan result) × (Transits g result) }
{
    let step = moves::open(ws, locals, plan, expand(g), seat, kind, g.oldest);
    keep(g, step)
}

// Whether a promotion is due: none is below the limit.
pub fn due(plan: Plan, g: Compact) -> bool
    requires { (Paced plan g) × (g.depth ≤ 4096) }
    ensures { result ≡ (leb plan.period (full g).credits.0 && ltb g.oldest g.depth) }
{
    g.limit <= g.transitions
        && moves::due(
            plan.period,
            Credits(g.transitions - g.since),
            g.oldest,
            g.depth,
        )
}
