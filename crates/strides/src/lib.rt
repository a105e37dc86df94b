// Several transitions of the flat machine at once, where they are certain, or one.
//
// A simple operand is a constant, a local, or an arithmetic of two of these. Where the children that a node evaluates are simple, or the right
// operand that an arithmetic frame awaits, the machine opens frames and closes them again: its state afterwards is known at once, and no frame
// is written for it. That is a stride. It is made where there is fuel for all of it, its frames were occupied before, and no promotion comes due
// within; else, and where an operation fails, one step is made, so that every stop stays where it is and only a step raises the depth.

#![tactic(auto)]

ghost use Rattle.std.specs.Prelude.{◌≡◌, None, cond, ◌+◌, ◌*◌, ◌/◌, ◌<◌, ◌≤◌, length, get_or, eqb};
ghost use Rattle.table.specs.Words.{arity_at};
ghost use Rattle.moves.specs.Ready.{Framed, Operand, Paid};
ghost use Rattle.moves.specs.Layout.{word_of};
ghost use Rattle.compact.specs.Compact.{full, later_of, Small, Paced};
ghost use Rattle.operands.specs.Operands.{cost_at, leaf_at, LeafAt};
ghost use Rattle.strides.specs.Strides.{body_of, Strides, Frees, Awaits, Passes, Ends, Starts, Calm, Tagged, Evaluating, Jumps, Paired, Led, Calls, OrOpened, Rebounds, Returning};

mod site;

use compact::{Compact, Event, Pause, Progress};
use frames::Seat;
use moves::{Control, Job, Kind, Plan, Step, Stopped};
use schedule::Span;
use site::Site;

// The tags of the nodes that are no constant and no local.
// Kept: no plainer as an enum, because the one match on them, in `evaluate`, would come just after the conversion; `table::Node`, which is one, is made
// of all four words of a node.
const ARITHMETIC: u32 = 2;

const CHOOSE: u32 = 3;

const LET: u32 = 4;

const CALL: u32 = 5;

const BOTH: u32 = 6;

// An arithmetic whose operands are both simple; the left one has the value x.
fn whole(
    site: Site,
    locals: &[u64],
    g: Compact,
    x: u64,
    k: u64,
    right: usize,
    l: u64,
) -> Option<Compact>
    requires { (Tagged site.words.now locals.now g site.seat site.start site.at 2) × (Led site.words.now locals.now site.seat x k) × (right ≡ site.start + 4 * get_or site.words.now (site.at + 2) 0) × (l ≡ cost_at site.words.now right) × (0 < l) }
    ensures { Jumps site.entry.words.now locals.now g site.entry.seat locals.now result }
{
    let h = operands::frames_of(k).max(operands::frames_of(l)) + 1;
    if !compact::fits(g, k + l, 3, h) {
        return None;
    }
    let y = operands::simple(site.words, right, locals, 0).ok()?;
    let v = operands::operate(site.words[site.at + 1], x, y).ok()?;
    Some(compact::later(g, Control::Ret(v), g.depth, k + l + 3))
}

// An arithmetic whose left operand is simple, and not the right one: its frame is written with the left operand's value x.
fn half(site: Site, ws: &mut [u64], locals: &[u64], g: Compact, x: u64, k: u64) -> Option<Compact>
    requires { (Tagged site.words.now locals.now g site.seat site.start site.at 2) × (Led site.words.now locals.now site.seat x k) × (length ws.old / 32 ≤ 4096) × (g.deepest ≤ length ws.old / 32) }
    ensures { Paired site.entry.words.now ws.old locals.now g site.entry.seat ws.new result }
{
    let h = operands::frames_of(k) + 1;
    if !compact::fits(g, k, 2, h) {
        return None;
    }
    let kind = u64::from(Kind::RightOperand);
    let b = frames::WORDS * g.depth;
    frames::push(ws, b, kind, site.seat, locals, Span::none());
    frames::turn(ws, b, kind, x, Span::none());
    let node = site.words[site.at + 2] as usize;
    let right = Control::Eval(Seat { node, ..site.seat });
    Some(compact::later(g, right, g.depth + 1, k + 2))
}

// An arithmetic whose left operand is simple and has the value x.
fn paired(site: Site, ws: &mut [u64], locals: &[u64], g: Compact, x: u64, k: u64) -> Option<Compact>
    requires { (Tagged site.words.now locals.now g site.seat site.start site.at 2) × (Led site.words.now locals.now site.seat x k) × (length ws.old / 32 ≤ 4096) × (g.deepest ≤ length ws.old / 32) }
    ensures { Paired site.entry.words.now ws.old locals.now g site.entry.seat ws.new result }
{
    let right = site.start + 4 * site.words[site.at + 2] as usize;
    let l = operands::cost(site.words, right);
    if 0 < l {
        whole(site, locals, g, x, k, right, l)
    } else {
        half(site, ws, locals, g, x, k)
    }
}

// An arithmetic.
fn pair(site: Site, ws: &mut [u64], locals: &[u64], g: Compact) -> Option<Compact>
    requires { (Tagged site.words.now locals.now g site.seat site.start site.at 2) × (length ws.old / 32 ≤ 4096) × (g.deepest ≤ length ws.old / 32) }
    ensures { Paired site.entry.words.now ws.old locals.now g site.entry.seat ws.new result }
{
    let k = operands::cost(site.words, site.at + 4);
    if k == 0 {
        return None;
    }
    let x = operands::simple(site.words, site.at + 4, locals, 0).ok()?;
    paired(site, ws, locals, g, x, k)
}

// The branch of a choose, by its condition.
#[tactic(auto, using(std::proofs::lemmas::Bool::Decides::nat_tests))]
fn branch(words: &[u32], at: usize, x: u64) -> usize
    requires { at + 4 ≤ length words.now }
    ensures { result ≡ cond (eqb x 0) (get_or words.now (at + 3) 0) (get_or words.now (at + 2) 0) }
{
    if x == 0 {
        words[at + 3] as usize
    } else {
        words[at + 2] as usize
    }
}

// A choose whose condition is simple: the branch is evaluated.
fn choose(site: Site, locals: &[u64], g: Compact) -> Option<Compact>
    requires { Tagged site.words.now locals.now g site.seat site.start site.at 3 }
    ensures { Jumps site.entry.words.now locals.now g site.entry.seat locals.now result }
{
    let k = operands::cost(site.words, site.at + 4);
    if !compact::fits(g, k, 2, operands::frames_of(k) + 1) {
        return None;
    }
    let x = operands::simple(site.words, site.at + 4, locals, 0).ok()?;
    let node = branch(site.words, site.at, x);
    let taken = Control::Eval(Seat { node, ..site.seat });
    Some(compact::later(g, taken, g.depth, k + 2))
}

// A let whose first is simple: the second is evaluated with the value added.
fn bind(site: Site, locals: &mut [u64], g: Compact) -> Option<Compact>
    requires { Tagged site.words.now locals.old g site.seat site.start site.at 4 }
    ensures { Jumps site.entry.words.now locals.old g site.entry.seat locals.new result }
{
    let k = operands::cost(site.words, site.at + 4);
    if !compact::fits(g, k, 2, operands::frames_of(k) + 1) {
        return None;
    }
    let x = operands::simple(site.words, site.at + 4, locals, 0).ok()?;
    frames::append(locals, site.seat.count, x);
    let second = Seat {
        node: site.words[site.at + 2] as usize,
        count: site.seat.count + 1,
        ..site.seat
    };
    Some(compact::later(g, Control::Eval(second), g.depth, k + 2))
}

// The body of f is entered with so many arguments, k transitions later.
fn entered(g: Compact, f: usize, count: usize, k: u64) -> Compact
    requires { (Small g) × (k ≤ 1000) }
    ensures { result ≡ later_of g (Control.Eval (body_of f count)) g.depth k }
{
    let body = Seat {
        function: f,
        node: 0,
        count,
    };
    compact::later(g, Control::Eval(body), g.depth, k)
}

// A call of f with one argument, which is simple.
// Kept: a function for each number of arguments. No plainer, because one loop over them would carry their costs, frames and values in arrays, and
// what a call leads to is stated of `operands` for each number (`call_one_leads`, `call_two_leads`, `call_three_leads`).
fn call_one(site: Site, locals: &mut [u64], g: Compact, f: usize) -> Option<Compact>
    requires { (Tagged site.words.now locals.old g site.seat site.start site.at 5) × (f ≡ get_or site.words.now (site.at + 1) 0) × (arity_at site.words.now f ≡ 1) }
    ensures { Jumps site.entry.words.now locals.old g site.entry.seat locals.new result }
{
    let k = operands::cost(site.words, site.at + 4);
    if !compact::fits(g, k, 2, operands::frames_of(k) + 1) {
        return None;
    }
    let x = operands::simple(site.words, site.at + 4, locals, 0).ok()?;
    frames::append(locals, 0, x);
    Some(entered(g, f, 1, k + 2))
}

// A call of f with two arguments, which are simple.
fn call_two(site: Site, locals: &mut [u64], g: Compact, f: usize) -> Option<Compact>
    requires { (Tagged site.words.now locals.old g site.seat site.start site.at 5) × (f ≡ get_or site.words.now (site.at + 1) 0) × (arity_at site.words.now f ≡ 2) }
    ensures { Jumps site.entry.words.now locals.old g site.entry.seat locals.new result }
{
    let two = site.start + 4 * site.words[site.at + 2] as usize;
    let k = operands::cost(site.words, site.at + 4);
    let l = operands::cost(site.words, two);
    let h = operands::frames_of(k).max(operands::frames_of(l)) + 1;
    if !compact::fits(g, operands::both(k, l), 3, h) {
        return None;
    }
    let x = operands::simple(site.words, site.at + 4, locals, 0).ok()?;
    let y = operands::simple(site.words, two, locals, 0).ok()?;
    frames::append(locals, 0, x);
    frames::append(locals, 1, y);
    Some(entered(g, f, 2, k + l + 3))
}

// A call of f with three arguments, which are simple.
#[tactic(auto, using(operands::proofs::Operands::cost_few))]
fn call_three(site: Site, locals: &mut [u64], g: Compact, f: usize) -> Option<Compact>
    requires { (Tagged site.words.now locals.old g site.seat site.start site.at 5) × (f ≡ get_or site.words.now (site.at + 1) 0) × (arity_at site.words.now f ≡ 3) }
    ensures { Jumps site.entry.words.now locals.old g site.entry.seat locals.new result }
{
    let two = site.start + 4 * site.words[site.at + 2] as usize;
    let three = site.start + 4 * site.words[site.at + 3] as usize;
    let k = operands::cost(site.words, site.at + 4);
    let l = operands::cost(site.words, two);
    let m = operands::cost(site.words, three);
    let low = operands::frames_of(l).max(operands::frames_of(m));
    let h = operands::frames_of(k).max(low) + 1;
    if !compact::fits(g, operands::both(operands::both(k, l), m), 4, h) {
        return None;
    }
    let x = operands::simple(site.words, site.at + 4, locals, 0).ok()?;
    let y = operands::simple(site.words, two, locals, 0).ok()?;
    let z = operands::simple(site.words, three, locals, 0).ok()?;
    frames::append(locals, 0, x);
    frames::append(locals, 1, y);
    frames::append(locals, 2, z);
    Some(entered(g, f, 3, k + l + m + 4))
}

// A call, by its number of arguments.
fn call(site: Site, locals: &mut [u64], g: Compact) -> Option<Compact>
    requires { Tagged site.words.now locals.old g site.seat site.start site.at 5 }
    ensures { Calls site.entry.words.now locals.old g site.entry.seat site.entry.at locals.new result }
{
    let f = site.words[site.at + 1] as usize;
    match table::arity(site.words, f) {
        0 => Some(entered(g, f, 0, 1)),
        1 => call_one(site, locals, g, f),
        2 => call_two(site, locals, g, f),
        3 => call_three(site, locals, g, f),
        _ => None,
    }
}

// The stride that was made, or else a step that opens a frame of this kind.
fn or_open(
    stride: Option<Compact>,
    ws: &mut [u64],
    locals: &[u64],
    plan: Plan,
    g: Compact,
    seat: Seat,
    kind: Kind,
) -> Progress
    requires { stride ≡ None → (Framed ws.old locals.now (full g) seat) × (Paced plan g) × (Paid plan (full g)) }
    ensures { OrOpened ws.old locals.now plan g seat kind stride ws.new result }
{
    match stride {
        Some(next) => Progress::Go(next),
        None => compact::open(ws, locals, plan, g, seat, kind.into()),
    }
}

// Evaluates a "both": a plain fork. One that is promoted at its birth takes no transition.
fn evaluate_both(site: Site, ws: &mut [u64], locals: &[u64], plan: Plan, g: Compact) -> Progress
    requires { Evaluating site.words.now ws.old locals.now plan g site.seat site.start site.at 6 }
    ensures { Passes site.entry.words.now ws.old locals.now plan g ws.new locals.now result }
{
    if plan.birth {
        return Progress::Paused(Pause::Fork(site.seat));
    }
    let step = moves::evaluate_both(ws, locals, plan, compact::expand(g), site.seat);
    compact::go_on(plan, g, step)
}

// A constant or a local: its value returns.
fn read(site: Site, locals: &[u64], g: Compact) -> Compact
    requires { (LeafAt site.words.now site.at locals.now 0) × (Small g) }
    ensures { result ≡ later_of g (Control.Ret (leaf_at site.entry.words.now site.entry.at locals.now 0)) g.depth 1 }
{
    let v = operands::leaf(site.words, site.at, locals, 0);
    compact::later(g, Control::Ret(v), g.depth, 1)
}

// Evaluates a node.
fn evaluate(
    job: Job,
    ws: &mut [u64],
    locals: &mut [u64],
    plan: Plan,
    g: Compact,
    seat: Seat,
) -> Progress
    requires { (Calm job.words.now ws.old locals.old plan g) × (g.control ≡ Control.Eval seat) × (Paid plan (full g)) }
    ensures { Passes job.entry.words.now ws.old locals.old plan g ws.new locals.new result }
{
    let start = job.start(seat.function);
    let site = Site {
        words: job.words,
        seat,
        start,
        at: start + 4 * seat.node,
    };
    match site.words[site.at] {
        ARITHMETIC => {
            let stride = pair(site, ws, locals, g);
            or_open(stride, ws, locals, plan, g, seat, Kind::LeftOperand)
        }
        CHOOSE => {
            let stride = choose(site, locals, g);
            or_open(stride, ws, locals, plan, g, seat, Kind::Condition)
        }
        LET => {
            let stride = bind(site, locals, g);
            or_open(stride, ws, locals, plan, g, seat, Kind::Binding)
        }
        CALL => {
            let stride = call(site, locals, g);
            or_open(stride, ws, locals, plan, g, seat, Kind::Argument)
        }
        BOTH => evaluate_both(site, ws, locals, plan, g),
        _ => Progress::Go(read(site, locals, g)),
    }
}

// A value that returns to an arithmetic frame whose right operand is simple.
fn rebound(job: Job, ws: &[u64], g: Compact, v: u64, top: usize) -> Option<Compact>
    requires { (Operand job.words.now ws.now (32 * top)) × (Small g) × (g.depth ≡ top + 1) }
    ensures { Rebounds job.entry.words.now ws.now g v top result }
{
    let b = frames::WORDS * top;
    let seat = frames::seat_of(ws, b);
    let start = job.start(seat.function);
    let at = start + 4 * seat.node;
    let right = start + 4 * job.words[at + 2] as usize;
    let k = operands::cost(job.words, right);
    if !compact::fits(g, k, 2, operands::frames_of(k)) {
        return None;
    }
    let y = operands::simple(job.words, right, ws, b + frames::LOCALS).ok()?;
    let z = operands::operate(job.words[at + 1], v, y).ok()?;
    Some(compact::later(g, Control::Ret(z), top, k + 2))
}

// A left operand.
fn ret_left(
    job: Job,
    ws: &mut [u64],
    locals: &mut [u64],
    plan: Plan,
    g: Compact,
    v: u64,
    top: usize,
) -> Progress
    requires { (Returning job.words.now ws.old locals.old plan g v top 0) × (Paid plan (full g)) }
    ensures { Strides job.entry.words.now ws.old locals.old plan g ws.new locals.new result }
{
    if let Some(next) = rebound(job, ws, g, v, top) {
        return Progress::Go(next);
    }
    let step = moves::ret_left_operand(job, ws, locals, plan, compact::expand(g), v, top);
    compact::keep(g, step)
}

// A value returns by a transition, to a frame that is not a promoted fork.
fn ret_paid(
    job: Job,
    ws: &mut [u64],
    locals: &mut [u64],
    plan: Plan,
    g: Compact,
    v: u64,
    top: usize,
    kind: Kind,
) -> Progress
    requires { (Returning job.words.now ws.old locals.old plan g v top (word_of kind)) × (word_of kind < 7) × (Paid plan (full g)) }
    ensures { Strides job.entry.words.now ws.old locals.old plan g ws.new locals.new result }
{
    let s = compact::expand(g);
    match kind {
        Kind::LeftOperand => ret_left(job, ws, locals, plan, g, v, top),
        Kind::RightOperand => compact::keep(
            g,
            moves::ret_right_operand(job, ws, locals, plan, s, v, top),
        ),
        Kind::Condition => compact::keep(g, moves::ret_condition(job, ws, locals, plan, s, v, top)),
        Kind::Binding => compact::keep(g, moves::ret_binding(job, ws, locals, plan, s, v, top)),
        Kind::Argument => compact::keep(g, moves::ret_argument(job, ws, locals, plan, s, v, top)),
        Kind::PlainLeft => compact::go_on(
            plan,
            g,
            moves::ret_plain_left(job, ws, locals, plan, s, v, top),
        ),
        _ => compact::keep(g, moves::ret_plain_right(job, ws, locals, plan, s, v, top)),
    }
}

// A value returns to the newest frame, or ends the run. At a promoted fork it arrives with no transition.
fn ret(job: Job, ws: &mut [u64], locals: &mut [u64], plan: Plan, g: Compact, v: u64) -> Progress
    requires { (Calm job.words.now ws.old locals.old plan g) × (g.control ≡ Control.Ret v) × (Paid plan (full g)) }
    ensures { Passes job.entry.words.now ws.old locals.old plan g ws.new locals.new result }
{
    if g.depth == 0 {
        return Progress::Value(v);
    }
    let top = g.depth - 1;
    let kind = moves::kind_of(ws, top);
    if !kind.promoted() {
        return ret_paid(job, ws, locals, plan, g, v, top, kind);
    }
    match kind {
        Kind::PromotedLeft => Progress::Paused(Pause::Turn(v, top)),
        _ => Progress::Paused(Pause::Join(v, top)),
    }
}

// One step that is a transition, or several at once; a pause where the limit is reached or the next move is free.
pub fn stride(job: Job, ws: &mut [u64], locals: &mut [u64], plan: Plan, g: Compact) -> Progress
    requires { Starts job.words.now ws.old locals.old plan g }
    ensures { Passes job.entry.words.now ws.old locals.old plan g ws.new locals.new result }
{
    if g.limit <= g.transitions {
        return Progress::Paused(Pause::Limit);
    }
    match g.control {
        Control::Eval(seat) => evaluate(job, ws, locals, plan, g, seat),
        Control::Ret(v) => ret(job, ws, locals, plan, g, v),
    }
}

// Promotes the oldest plain fork.
pub fn promote(words: &[u32], ws: &mut [u64], locals: &[u64], plan: Plan, g: Compact) -> Progress
    requires { (Starts words.now ws.old locals.now plan g) × (Awaits words.now ws.old locals.now plan g Pause.Promotion) }
    ensures { Frees words.now ws.old locals.now plan g (Event.Fork g.oldest) ws.new locals.now result }
{
    let s = moves::promote(ws, compact::expand(g));
    let next = compact::settle(plan, Step::Go(s));
    compact::free(next, Event::Fork(g.oldest))
}

// Opens a fork that is promoted at its birth, in a free frame.
pub fn fork(
    words: &[u32],
    ws: &mut [u64],
    locals: &[u64],
    plan: Plan,
    g: Compact,
    seat: Seat,
) -> Progress
    requires { (Awaits words.now ws.old locals.now plan g (Pause.Fork seat)) × (g.depth < length ws.old / 32) }
    ensures { Frees words.now ws.old locals.now plan g (Event.Fork g.depth) ws.new locals.now result }
{
    let step = moves::fork(ws, locals, compact::expand(g), seat);
    let next = compact::restart(plan, step);
    compact::free(next, Event::Fork(g.depth))
}

// Where no frame is free for it.
pub fn crowded(
    words: &[u32],
    ws: &[u64],
    locals: &[u64],
    plan: Plan,
    g: Compact,
    seat: Seat,
) -> Progress
    requires { (Awaits words.now ws.now locals.now plan g (Pause.Fork seat)) × (length ws.now / 32 ≤ g.depth) }
    ensures { (Strides words.now ws.now locals.now plan g ws.now locals.now result) × ((next : Compact) → result ≡ Progress.Go next → ⊥) }
{
    Progress::Halt(Stopped {
        number: 21,
        function: seat.function,
        node: seat.node,
    })
}

// A left value arrives at a promoted fork.
pub fn turn(
    job: Job,
    ws: &mut [u64],
    locals: &mut [u64],
    plan: Plan,
    g: Compact,
    v: u64,
    top: usize,
) -> Progress
    requires { Awaits job.words.now ws.old locals.old plan g (Pause.Turn v top) }
    ensures { Frees job.entry.words.now ws.old locals.old plan g (Event.Turn top) ws.new locals.new result }
{
    let step = moves::turned(job, ws, locals, plan, compact::expand(g), v, top);
    let next = compact::restart(plan, step);
    compact::free(next, Event::Turn(top))
}

// A right value arrives there.
pub fn join(
    job: Job,
    ws: &[u64],
    locals: &mut [u64],
    plan: Plan,
    g: Compact,
    v: u64,
    top: usize,
) -> Progress
    requires { Awaits job.words.now ws.now locals.old plan g (Pause.Join v top) }
    ensures { Frees job.entry.words.now ws.now locals.old plan g (Event.Join top) ws.now locals.new result }
{
    let step = moves::joined(job, ws, locals, plan, compact::expand(g), v, top);
    let next = compact::restart(plan, step);
    compact::free(next, Event::Join(top))
}

// Stop 20, the fuel is spent.
fn spent(seat: Seat) -> Progress
    ensures { result ≡ Progress.Halt (record { number = 20; function = seat.function; node = seat.node }) }
{
    Progress::Halt(Stopped {
        number: 20,
        function: seat.function,
        node: seat.node,
    })
}

// A node is evaluated with the fuel spent: only a fork that is promoted at its birth can go on.
fn spent_node(job: Job, ws: &[u64], locals: &[u64], plan: Plan, g: Compact, seat: Seat) -> Progress
    requires { (Calm job.words.now ws.now locals.now plan g) × (g.control ≡ Control.Eval seat) × (plan.fuel.0 ≤ g.transitions) }
    ensures { Ends job.entry.words.now ws.now locals.now plan g result }
{
    let start = job.start(seat.function);
    let tag = job.words[start + 4 * seat.node];
    if tag == BOTH && plan.birth {
        Progress::Paused(Pause::Fork(seat))
    } else {
        spent(seat)
    }
}

// A value returns with the fuel spent: it ends the run, or arrives at a promoted fork.
fn spent_value(
    words: &[u32],
    ws: &[u64],
    locals: &[u64],
    plan: Plan,
    g: Compact,
    v: u64,
) -> Progress
    requires { (Calm words.now ws.now locals.now plan g) × (g.control ≡ Control.Ret v) × (plan.fuel.0 ≤ g.transitions) }
    ensures { Ends words.now ws.now locals.now plan g result }
{
    if g.depth == 0 {
        return Progress::Value(v);
    }
    let top = g.depth - 1;
    match moves::kind_of(ws, top) {
        Kind::PromotedLeft => Progress::Paused(Pause::Turn(v, top)),
        Kind::PromotedRight => Progress::Paused(Pause::Join(v, top)),
        _ => spent(frames::seat_of(ws, frames::WORDS * top)),
    }
}

// At the limit: a promotion that is due, or what comes where the fuel is spent.
pub fn at_limit(job: Job, ws: &[u64], locals: &[u64], plan: Plan, g: Compact) -> Progress
    requires { (Starts job.words.now ws.now locals.now plan g) × (g.limit ≤ g.transitions) }
    ensures { Ends job.entry.words.now ws.now locals.now plan g result }
{
    if compact::due(plan, g) {
        return Progress::Paused(Pause::Promotion);
    }
    match g.control {
        Control::Eval(seat) => spent_node(job, ws, locals, plan, g, seat),
        Control::Ret(v) => spent_value(job.words, ws, locals, plan, g, v),
    }
}
