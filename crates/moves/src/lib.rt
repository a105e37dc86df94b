// One move of the flat machine under a schedule, with its frames in a lent workspace.

#![tactic(auto)]

ghost use Rattle.std.specs.Prelude.{◌≡◌, false, ◌&&◌, ◌+◌, ◌*◌, ◌/◌, ◌<◌, ◌≤◌, ◌^◌, max, length, ltb, leb};
ghost use Rattle.table.specs.Words.{arity_at};
ghost use Rattle.frames.specs.Frames.{frame_kind, frame_count, frame_value};
ghost use Rattle.moves.specs.Layout.{kind_of, ticked, restarted, risen, oldest_with, oldest_without, halted};
ghost use Rattle.moves.specs.Ready.{Returns, Paid, Stepped, Ticks, Restarts, Framed, Opened, Forked, OpenedBoth, Sitting, Child, Operand, operation, Resumed, called_at, Concluded, Found, Promoted};

mod job;
mod kind;

use frames::Seat;
pub use job::Job;
pub use kind::Kind;
use schedule::{Credits, Fuel, Span};
use table::Node;

// No plain fork: above every depth.
// Kept: no plainer, because above every depth it makes `oldest < depth` and `oldest.min(depth)` whole answers, and the definitions have 4096 for none
// (`limit_of`, `oldest_without`).
pub const NO_FORK: usize = 4096;

// A node is evaluated, or a value returns.
// Kept: no plainer as a Result, because neither is a failure of the other.
#[derive(Clone, Copy)]
pub enum Control {
    Eval(Seat),
    Ret(u64),
}

// What a run carries beside its workspace and its locals.
#[derive(Clone, Copy)]
pub struct Registers {
    pub control: Control,
    // The frames that are occupied.
    pub depth: usize,
    // The oldest plain fork that awaits its left, or 4096.
    pub oldest: usize,
    pub credits: Credits,
    pub span: Span,
    pub transitions: u64,
    pub forks: u64,
    // The most frames that were occupied at once.
    pub deepest: usize,
}

// A schedule by its two flags, with the run's settings. A period above the fuel is never reached.
// Kept: no plainer, because `machine::Schedule` is the enum that a plan is made of, and a move asks of it `birth` alone, at a "both", or the period alone.
#[derive(Clone, Copy)]
pub struct Plan {
    pub birth: bool,
    pub period: u64,
    pub tau: u64,
    pub fuel: Fuel,
}

// The number of a stop, with its function and node.
// Kept: the number, what may not change: 01, "The answer is the number, function, node", and `StopListed` and `Listed` speak of numbers. And apart from
// `table::Refusal`, which has the same fields: a stop may not stand for a refusal.
#[derive(Clone, Copy)]
pub struct Stopped {
    pub number: u32,
    pub function: usize,
    pub node: usize,
}

// What a move comes to.
#[derive(Clone, Copy)]
pub enum Step {
    Go(Registers),
    Value(u64),
    Halt(Stopped),
}

pub fn halt(number: u32, function: usize, node: usize) -> Step
    ensures { result ≡ halted number function node }
{
    Step::Halt(Stopped {
        number,
        function,
        node,
    })
}

// One transition more.
fn tick(s: Registers, control: Control, depth: usize, oldest: usize) -> Registers
    requires { (s.credits.0 < 2 ^ 60) × (s.span.0 < 2 ^ 60) × (s.transitions < 2 ^ 60) }
    ensures { result ≡ ticked s control depth oldest }
{
    Registers {
        control,
        depth,
        oldest,
        credits: s.credits.one_more(),
        span: s.span.one_more(),
        transitions: s.transitions + 1,
        ..s
    }
}

// A machine that starts afresh.
fn restart(
    s: Registers,
    control: Control,
    depth: usize,
    oldest: usize,
    span: Span,
    forks: u64,
) -> Registers
    ensures { result ≡ restarted s control depth oldest span.0 forks }
{
    Registers {
        control,
        depth,
        oldest,
        credits: Credits::none(),
        span,
        forks,
        ..s
    }
}

// One frame more at once.
fn rise(s: Registers) -> Registers
    requires { s.depth < 4096 }
    ensures { result ≡ risen s }
{
    Registers {
        deepest: s.deepest.max(s.depth + 1),
        ..s
    }
}

// A transition that opens a frame, if one is free.
pub fn open(
    ws: &mut [u64],
    locals: &[u64],
    plan: Plan,
    s: Registers,
    seat: Seat,
    kind: u64,
    oldest: usize,
) -> Step
    requires { (Framed ws.old locals.now s seat) × (Paid plan s) }
    ensures { Opened ws.old ws.new locals.now plan s seat kind oldest result }
{
    if s.depth < ws.len() / frames::WORDS {
        let b = frames::WORDS * s.depth;
        frames::push(ws, b, kind, seat, locals, Span::none());
        let up = rise(s);
        let node = seat.node + 1;
        let first = Control::Eval(Seat { node, ..seat });
        Step::Go(tick(up, first, s.depth + 1, oldest))
    } else {
        halt(21, seat.function, seat.node)
    }
}

// Opens a fork that is promoted at its birth, with no transition.
pub fn fork(ws: &mut [u64], locals: &[u64], s: Registers, seat: Seat) -> Step
    requires { Framed ws.old locals.now s seat }
    ensures { Forked ws.old ws.new locals.now s seat result }
{
    let depth = s.depth;
    let span = s.span;
    if depth < ws.len() / frames::WORDS {
        let b = frames::WORDS * depth;
        frames::push(ws, b, Kind::PromotedLeft.into(), seat, locals, span);
        let up = rise(s);
        let node = seat.node + 1;
        let first = Control::Eval(Seat { node, ..seat });
        Step::Go(restart(up, first, depth + 1, s.oldest, Span::none(), s.forks + 1))
    } else {
        halt(21, seat.function, seat.node)
    }
}

// The oldest plain fork that awaits its left where one more is opened.
fn oldest_with(oldest: usize, depth: usize) -> usize
    ensures { result ≡ oldest_with oldest depth }
{
    oldest.min(depth)
}

// The same where the one at `top` is none any more.
fn oldest_without(oldest: usize, top: usize) -> usize
    ensures { result ≡ oldest_without oldest top }
{
    if oldest == top { NO_FORK } else { oldest }
}

// Evaluates a "both" whose fork is plain.
pub fn evaluate_both(ws: &mut [u64], locals: &[u64], plan: Plan, s: Registers, seat: Seat) -> Step
    requires { (Framed ws.old locals.now s seat) × (Paid plan s) × (plan.birth ≡ false) }
    ensures { OpenedBoth ws.old ws.new locals.now plan s seat result }
{
    let oldest = oldest_with(s.oldest, s.depth);
    open(ws, locals, plan, s, seat, Kind::PlainLeft.into(), oldest)
}

// The second child of the node of the frame at b, or its third, with the frame's locals.
fn child(job: Job, ws: &[u64], locals: &mut [u64], b: usize, last: bool) -> Seat
    requires { Sitting job.words.now ws.now locals.old b }
    ensures { Child job.entry.words.now ws.now locals.old b last locals.new result }
{
    let seat = frames::seat_of(ws, b);
    frames::load_locals(locals, ws, b, seat.count);
    let start = job.start(seat.function);
    let node = if last {
        table::third(job.words, start, seat.node)
    } else {
        table::second(job.words, start, seat.node)
    };
    Seat { node, ..seat }
}

// A left operand: the right one is evaluated.
pub fn ret_left_operand(
    job: Job,
    ws: &mut [u64],
    locals: &mut [u64],
    plan: Plan,
    s: Registers,
    v: u64,
    top: usize,
) -> Step
    requires { (Returns job.words.now ws.old locals.old plan s v top 0) × (Paid plan s) }
    ensures { (Stepped job.entry.words.now ws.old locals.old plan s ws.new locals.new result) × (Ticks s result) }
{
    let b = frames::WORDS * top;
    frames::turn(ws, b, Kind::RightOperand.into(), v, Span::none());
    let seat = child(job, ws, locals, b, false);
    Step::Go(tick(s, Control::Eval(seat), top + 1, s.oldest))
}

// What the operation of the arithmetic frame at b gives on its left operand and v.
fn operated(job: Job, ws: &[u64], b: usize, v: u64) -> Result<u64, Stopped>
    requires { Operand job.words.now ws.now b }
    ensures { result ≡ operation job.entry.words.now ws.now b v }
{
    let seat = frames::seat_of(ws, b);
    let Seat { function, node, .. } = seat;
    let Node::Arithmetic(operation, _) = table::node_at(job.words, job.start(function), node) else {
        return Err(Stopped {
            number: 4,
            function,
            node,
        });
    };
    arithmetic::operate(operation, frames::value_of(ws, b), v).map_err(|failure| Stopped {
        number: u32::from(failure),
        function,
        node,
    })
}

// After an operation: the result is returned, or the stop ends the run.
fn resumed(s: Registers, top: usize, computed: Result<u64, Stopped>) -> Step
    requires { (s.credits.0 < 2 ^ 60) × (s.span.0 < 2 ^ 60) × (s.transitions < 2 ^ 60) }
    ensures { Resumed s top computed result }
{
    match computed {
        Ok(r) => Step::Go(tick(s, Control::Ret(r), top, s.oldest)),
        Err(stop) => Step::Halt(stop),
    }
}

// A right operand: the operation is made.
pub fn ret_right_operand(
    job: Job,
    ws: &[u64],
    locals: &[u64],
    plan: Plan,
    s: Registers,
    v: u64,
    top: usize,
) -> Step
    requires { (Returns job.words.now ws.now locals.now plan s v top 1) × (Paid plan s) }
    ensures { (Stepped job.entry.words.now ws.now locals.now plan s ws.now locals.now result) × (Ticks s result) }
{
    let computed = operated(job, ws, frames::WORDS * top, v);
    resumed(s, top, computed)
}

// A condition: the branch is evaluated.
pub fn ret_condition(
    job: Job,
    ws: &[u64],
    locals: &mut [u64],
    plan: Plan,
    s: Registers,
    v: u64,
    top: usize,
) -> Step
    requires { (Returns job.words.now ws.now locals.old plan s v top 2) × (Paid plan s) }
    ensures { (Stepped job.entry.words.now ws.now locals.old plan s ws.now locals.new result) × (Ticks s result) }
{
    let seat = child(job, ws, locals, frames::WORDS * top, v == 0);
    Step::Go(tick(s, Control::Eval(seat), top, s.oldest))
}

// The first of a let: the second is evaluated with the value added.
pub fn ret_binding(
    job: Job,
    ws: &[u64],
    locals: &mut [u64],
    plan: Plan,
    s: Registers,
    v: u64,
    top: usize,
) -> Step
    requires { (Returns job.words.now ws.now locals.old plan s v top 3) × (Paid plan s) }
    ensures { (Stepped job.entry.words.now ws.now locals.old plan s ws.now locals.new result) × (Ticks s result) }
{
    let seat = child(job, ws, locals, frames::WORDS * top, false);
    frames::append(locals, seat.count, v);
    let count = seat.count + 1;
    let second = Control::Eval(Seat { count, ..seat });
    Step::Go(tick(s, second, top, s.oldest))
}

// An argument that is not the last: the next one is evaluated.
fn next_argument(
    job: Job,
    ws: &mut [u64],
    locals: &mut [u64],
    plan: Plan,
    s: Registers,
    v: u64,
    top: usize,
    n: usize,
) -> Step
    requires { (Returns job.words.now ws.old locals.old plan s v top 4) × (Paid plan s) × (n ≡ frame_value ws.old (32 * top)) × (n + 1 < arity_at job.words.now (called_at job.words.now ws.old (32 * top))) }
    ensures { (Stepped job.entry.words.now ws.old locals.old plan s ws.new locals.new result) × (Ticks s result) }
{
    let b = frames::WORDS * top;
    frames::collect(ws, b, n, v);
    let seat = child(job, ws, locals, b, 1 < n + 1);
    Step::Go(tick(s, Control::Eval(seat), top + 1, s.oldest))
}

// The last argument: the called body is evaluated with just the arguments.
fn last_argument(
    job: Job,
    ws: &[u64],
    locals: &mut [u64],
    plan: Plan,
    s: Registers,
    v: u64,
    top: usize,
    n: usize,
    g: usize,
) -> Step
    requires { (Returns job.words.now ws.now locals.old plan s v top 4) × (Paid plan s) × (n ≡ frame_value ws.now (32 * top)) × (arity_at job.words.now g ≤ n + 1) × (g ≡ called_at job.words.now ws.now (32 * top)) }
    ensures { (Stepped job.entry.words.now ws.now locals.old plan s ws.now locals.new result) × (Ticks s result) }
{
    frames::load_arguments(locals, ws, frames::WORDS * top, n);
    frames::append(locals, n, v);
    let body = Control::Eval(Seat {
        function: g,
        node: 0,
        count: n + 1,
    });
    Step::Go(tick(s, body, top, s.oldest))
}

// An argument of a call.
pub fn ret_argument(
    job: Job,
    ws: &mut [u64],
    locals: &mut [u64],
    plan: Plan,
    s: Registers,
    v: u64,
    top: usize,
) -> Step
    requires { (Returns job.words.now ws.old locals.old plan s v top 4) × (Paid plan s) }
    ensures { (Stepped job.entry.words.now ws.old locals.old plan s ws.new locals.new result) × (Ticks s result) }
{
    let b = frames::WORDS * top;
    let seat = frames::seat_of(ws, b);
    let n = frames::value_of(ws, b) as usize;
    let g = table::called(job.words, job.start(seat.function), seat.node);
    if n + 1 < table::arity(job.words, g) {
        next_argument(job, ws, locals, plan, s, v, top, n)
    } else {
        last_argument(job, ws, locals, plan, s, v, top, n, g)
    }
}

// The left value of a plain fork: the right branch is evaluated.
pub fn ret_plain_left(
    job: Job,
    ws: &mut [u64],
    locals: &mut [u64],
    plan: Plan,
    s: Registers,
    v: u64,
    top: usize,
) -> Step
    requires { (Returns job.words.now ws.old locals.old plan s v top 5) × (Paid plan s) }
    ensures { Stepped job.entry.words.now ws.old locals.old plan s ws.new locals.new result }
{
    let b = frames::WORDS * top;
    frames::turn(ws, b, Kind::PlainRight.into(), v, Span::none());
    let seat = child(job, ws, locals, b, false);
    let oldest = oldest_without(s.oldest, top);
    Step::Go(tick(s, Control::Eval(seat), top + 1, oldest))
}

// The body of the node of the fork at b, with both values.
fn body(job: Job, ws: &[u64], locals: &mut [u64], b: usize, v: u64) -> Control
    requires { (Sitting job.words.now ws.now locals.old b) × (frame_count ws.now b + 2 ≤ 16) }
    ensures { Concluded job.entry.words.now ws.now locals.old b v locals.new result }
{
    let left = frames::value_of(ws, b);
    let seat = child(job, ws, locals, b, true);
    frames::append(locals, seat.count, left);
    frames::append(locals, seat.count + 1, v);
    let count = seat.count + 2;
    Control::Eval(Seat { count, ..seat })
}

// The right value of a plain fork: its body is evaluated.
pub fn ret_plain_right(
    job: Job,
    ws: &[u64],
    locals: &mut [u64],
    plan: Plan,
    s: Registers,
    v: u64,
    top: usize,
) -> Step
    requires { (Returns job.words.now ws.now locals.old plan s v top 6) × (Paid plan s) }
    ensures { (Stepped job.entry.words.now ws.now locals.old plan s ws.now locals.new result) × (Ticks s result) }
{
    let control = body(job, ws, locals, frames::WORDS * top, v);
    Step::Go(tick(s, control, top, s.oldest))
}

// The left value of a promoted fork, with no transition: the right branch is a fresh machine.
pub fn turned(
    job: Job,
    ws: &mut [u64],
    locals: &mut [u64],
    plan: Plan,
    s: Registers,
    v: u64,
    top: usize,
) -> Step
    requires { Returns job.words.now ws.old locals.old plan s v top 7 }
    ensures { (Stepped job.entry.words.now ws.old locals.old plan s ws.new locals.new result) × (Restarts s result) }
{
    let span = s.span;
    let b = frames::WORDS * top;
    frames::turn(ws, b, Kind::PromotedRight.into(), v, span);
    let seat = child(job, ws, locals, b, false);
    Step::Go(restart(
        s,
        Control::Eval(seat),
        top + 1,
        s.oldest,
        Span::none(),
        s.forks,
    ))
}

// The right value of a promoted fork, with no transition: the body goes on after both.
pub fn joined(
    job: Job,
    ws: &[u64],
    locals: &mut [u64],
    plan: Plan,
    s: Registers,
    v: u64,
    top: usize,
) -> Step
    requires { (Returns job.words.now ws.now locals.old plan s v top (frame_kind ws.now (32 * top))) × (8 ≤ frame_kind ws.now (32 * top)) }
    ensures { (Stepped job.entry.words.now ws.now locals.old plan s ws.now locals.new result) × (Restarts s result) }
{
    let b = frames::WORDS * top;
    let before = frames::before_of(ws, b);
    let left = frames::left_of(ws, b);
    let right = s.span;
    let whole = before.joined(plan.tau, left, right);
    let control = body(job, ws, locals, b, v);
    Step::Go(restart(s, control, top, s.oldest, whole, s.forks))
}

// The kind of frame d.
pub fn kind_of(ws: &[u64], d: usize) -> Kind
    requires { 32 * d + 32 ≤ length ws.now }
    ensures { result ≡ kind_of (frame_kind ws.now (32 * d)) }
{
    Kind::from(frames::kind_of(ws, frames::WORDS * d))
}

// The next plain fork from a place on, upward.
fn search(ws: &[u64], from: usize, depth: usize) -> usize
    requires { (32 * depth ≤ length ws.now) × (from ≤ depth) × (depth ≤ 4096) }
    ensures { Found ws.now from depth result }
{
    for i in from..depth {
        if kind_of(ws, i) == Kind::PlainLeft {
            return i;
        }
    }
    NO_FORK
}

// Promotes the oldest plain fork.
pub fn promote(ws: &mut [u64], s: Registers) -> Registers
    requires { (32 * s.depth ≤ length ws.old) × (s.oldest < s.depth) × (s.depth ≤ 4096) × (s.forks < 2 ^ 60) }
    ensures { Promoted ws.old s ws.new result }
{
    let at = s.oldest;
    let span = s.span;
    let control = s.control;
    frames::mark(ws, frames::WORDS * at, Kind::PromotedLeft.into(), span);
    let next = search(ws, at + 1, s.depth);
    restart(s, control, s.depth, next, Span::none(), s.forks + 1)
}

// Whether a promotion is due.
pub fn due(period: u64, credits: Credits, oldest: usize, depth: usize) -> bool
    ensures { result ≡ (leb period credits.0 && ltb oldest depth) }
{
    credits.reach(period) && oldest < depth
}
