// The three machines of document 01, in a lent workspace, for any input.
//
// A machine is named by its `Schedule`. `Schedule::run` checks its input and then runs it, by one loop of strides and free moves; `all_three`
// calls it for each of the three, and promises demand 3 of their answers. What a machine answers is defined in crate `language`
// (specs/Answers.antt), and what it leaves in the workspace in specs/Workspace.antt.
//
// `Schedule::run_graph` and `all_three_graphs` are the same with a buffer lent for each run's cost graph (document 02, P1). What they answer and
// leave in the buffer is defined in crate `graph_answers` (specs/Answers.antt). A run without a buffer is the same run with an empty one, and 25
// is not looked at.

#![tactic(auto)]

ghost use Rattle.std.specs.Prelude.{◌≡◌, ◌+◌, ◌*◌, ◌/◌, ◌≤◌, ◌<◌, ◌^◌, length, take};
ghost use Rattle.language.specs.Answers.{counts_of, stopped, answer_of};
ghost use Rattle.language.specs.Stops.{StopListed};
ghost use Rattle.compact.specs.Compact.{full, step_of, compact_of};
ghost use Rattle.strides.specs.Strides.{Starts, Awaits};
ghost use Rattle.marks.specs.Marks.{Small};
ghost use Rattle.machine.specs.Workspace.{left_by};
ghost use Rattle.graph_answers.specs.Fitted.{fitted_of};
ghost use Rattle.graph_answers.specs.Answers.{graphed_of, graph_left};
ghost use Rattle.machine.specs.Schedules.{schedule_of, Names};
ghost use Rattle.machine.specs.Runs.{begun, told_at, Countable, Accepted, Begins, Ran, Suits, Tells};
ghost use Rattle.machine.specs.Loop.{Onward, Resolved, Final, event_of, Fits, MarkableAt, Moves};
ghost use Rattle.machine.specs.Written.{Finished, Wrote, LendsBy, cleared_by, StopToldLent};
ghost use Rattle.machine.specs.AllThree.{AllThree, AllThreeGraphs};

use compact::{Compact, Event, Pause, Progress};
use frames::Seat;
use graph_answers::Graphed;
use language::{Answer, Counts, Settings, Stop};
use moves::{Control, Job, Plan, Registers};
use schedule::{Span, Work};

// The period of a machine that never promotes: above any fuel.
// Kept: no plainer, because a plan has one period for all three machines, a number in `Flags` and `Suits`, and above any fuel it is never reached.
const NEVER: u64 = u64::MAX;

// The schedule by which a machine promotes forks: none; each at its birth; or the oldest plain one, N transitions after the running machine's
// start.
#[derive(Clone, Copy, Debug, PartialEq, Eq)]
pub enum Schedule {
    Sequential,
    Parallel,
    Heartbeat,
}

// A number that names no schedule.
#[derive(Clone, Copy, Debug, PartialEq, Eq)]
pub struct UnknownSchedule(pub u32);

// By the numbers of the C interface.
impl TryFrom<u32> for Schedule {
    type Error = UnknownSchedule;

    ghost try_from_gives = { Names };

    fn try_from(number: u32) -> Result<Self, UnknownSchedule> {
        match number {
            0 => Ok(Schedule::Sequential),
            1 => Ok(Schedule::Parallel),
            2 => Ok(Schedule::Heartbeat),
            _ => Err(UnknownSchedule(number)),
        }
    }
}

// What the three machines tell of one input.
#[derive(Clone, Copy)]
pub struct ByMachine<T> {
    pub sequential: T,
    pub parallel: T,
    pub heartbeat: T,
}

// Where strides come to no more: the registers then, and the step that is none.
#[derive(Clone, Copy)]
struct Reached {
    registers: Compact,
    step: Progress,
}

// A free move with the number of words after it, or what ends the run.
#[derive(Clone, Copy)]
struct Moved {
    step: Progress,
    words: usize,
}

// The registers at a run's start, with so many arguments.
fn begin(plan: Plan, count: usize) -> Compact
    ensures { result ≡ compact_of plan (begun count) }
{
    let fuel = plan.fuel;
    let before = Span::none();
    Compact {
        control: Control::Eval(Seat {
            function: 0,
            node: 0,
            count,
        }),
        depth: 0,
        oldest: moves::NO_FORK,
        transitions: 0,
        since: 0,
        before,
        limit: fuel.0,
        forks: 0,
        deepest: 0,
    }
}

// The counts at a run's end.
fn count(tau: u64, s: Registers) -> Counts
    requires { (s.transitions ≤ 100000000) × (tau ≤ 10000) × (s.forks ≤ 1000000000) }
    ensures { result ≡ counts_of s.transitions s.forks (s.transitions + tau * s.forks) s.span.0 s.deepest }
{
    let work = Work::of(s.transitions, tau, s.forks);
    let span = s.span;
    Counts {
        transitions: s.transitions,
        forks: s.forks,
        work,
        span,
        deepest: s.deepest,
    }
}

fn stop(number: u32, function: usize, node: usize, transitions: u64, deepest: usize) -> Answer
    ensures { result ≡ stopped number (record { function = function; node = node }) transitions deepest }
{
    Answer::Stopped(Stop {
        number,
        function,
        node,
        transitions,
        deepest,
    })
}

// The answer where a run ends: its value with the counts, or its stop with the transitions made and the depth reached.
fn tell(plan: Plan, s: Registers, step: Progress) -> Answer
    requires { (Countable plan s) × (Final step) }
    ensures { result ≡ told_at plan.tau s (step_of step) }
{
    match step {
        Progress::Value(v) => Answer::Value(v, count(plan.tau, s)),
        Progress::Halt(h) => stop(h.number, h.function, h.node, s.transitions, s.deepest),
        Progress::Go(_) | Progress::Free(_, _) | Progress::Paused(_) => unreachable!(),
    }
}

// Where a run ends: its answer, and the number of words that its graph needs.
fn finish(graph: &mut [u32], plan: Plan, g: Compact, n: usize, step: Progress) -> Graphed
    requires { (g.since ≤ g.transitions) × ((full g).span.0 < 2 ^ 60) × (Countable plan (full g)) × (0 < length graph.old → Small n (full g).credits.0) × (Final step) }
    ensures { (result.answer ≡ told_at plan.tau (full g) (step_of step)) × (Finished graph.old n (full g).credits.0 result.words graph.new) }
{
    let answer = tell(plan, compact::expand(g), step);
    let words = marks::finish(graph, n, g.transitions - g.since);
    Graphed { answer, words }
}

// Strides, until one makes no transition: the run ends there, or a pause is made.
fn onward(job: Job, ws: &mut [u64], locals: &mut [u64], plan: Plan, from: Compact) -> Reached
    requires { Starts job.words.now ws.old locals.old plan from }
    ensures { Onward job.entry.words.now ws.old locals.old plan from ws.new locals.new result }
{
    let mut g = from;
    loop {
        let step = strides::stride(job, ws, locals, plan, g);
        let Progress::Go(next) = step else {
            return Reached { registers: g, step };
        };
        g = next;
    }
}

// A promotion, with its words of the graph before it; so in the moves below. n is the number of words so far.
// Kept: no plainer, because a struct of the lent buffer and n would have to promise at each call that it still holds the same buffer.
fn promoted(
    words: &[u32],
    ws: &mut [u64],
    locals: &[u64],
    graph: &mut [u32],
    plan: Plan,
    g: Compact,
    n: usize,
) -> Moved
    requires { (Starts words.now ws.old locals.now plan g) × (Awaits words.now ws.old locals.now plan g Pause.Promotion) × (MarkableAt ws.old graph.old g n (Event.Fork g.oldest)) }
    ensures { Moves words.now ws.old locals.now graph.old plan g n (Event.Fork g.oldest) ws.new locals.now graph.new result }
{
    let more = marks::begin(ws, graph, n, g.transitions - g.since, g.oldest);
    let step = strides::promote(words, ws, locals, plan, g);
    Moved { step, words: more }
}

// A fork promoted at its birth, in a free frame; where there is none the run ends.
fn forked(
    words: &[u32],
    ws: &mut [u64],
    locals: &[u64],
    graph: &mut [u32],
    plan: Plan,
    g: Compact,
    n: usize,
    seat: Seat,
) -> Moved
    requires { (Starts words.now ws.old locals.now plan g) × (Awaits words.now ws.old locals.now plan g (Pause.Fork seat)) × (g.depth < length ws.old / 32 → MarkableAt ws.old graph.old g n (Event.Fork g.depth)) }
    ensures { Moves words.now ws.old locals.now graph.old plan g n (Event.Fork g.depth) ws.new locals.now graph.new result }
{
    if g.depth < ws.len() / frames::WORDS {
        let more = marks::begin(ws, graph, n, g.transitions - g.since, g.depth);
        let step = strides::fork(words, ws, locals, plan, g, seat);
        Moved { step, words: more }
    } else {
        Moved {
            step: strides::crowded(words, ws, locals, plan, g, seat),
            words: n,
        }
    }
}

// A left value's arrival at a promoted fork.
// Kept: no plainer as one function with `joined`, because what they call differs in what it writes, and each promises a move of its own.
fn turned(
    job: Job,
    ws: &mut [u64],
    locals: &mut [u64],
    graph: &mut [u32],
    plan: Plan,
    g: Compact,
    n: usize,
    v: u64,
    top: usize,
) -> Moved
    requires { (Starts job.words.now ws.old locals.old plan g) × (Awaits job.words.now ws.old locals.old plan g (Pause.Turn v top)) × (MarkableAt ws.old graph.old g n (Event.Turn top)) }
    ensures { Moves job.entry.words.now ws.old locals.old graph.old plan g n (Event.Turn top) ws.new locals.new graph.new result }
{
    let more = marks::turn(ws, graph, n, g.transitions - g.since, top);
    let step = strides::turn(job, ws, locals, plan, g, v, top);
    Moved { step, words: more }
}

// A right value's arrival there.
// Kept: as at `turned`.
fn joined(
    job: Job,
    ws: &mut [u64],
    locals: &mut [u64],
    graph: &mut [u32],
    plan: Plan,
    g: Compact,
    n: usize,
    v: u64,
    top: usize,
) -> Moved
    requires { (Starts job.words.now ws.old locals.old plan g) × (Awaits job.words.now ws.old locals.old plan g (Pause.Join v top)) × (MarkableAt ws.old graph.old g n (Event.Join top)) }
    ensures { Moves job.entry.words.now ws.old locals.old graph.old plan g n (Event.Join top) ws.new locals.new graph.new result }
{
    let more = marks::join(ws, graph, n, g.transitions - g.since, top);
    let step = strides::join(job, ws, locals, plan, g, v, top);
    Moved { step, words: more }
}

// The free move that a pause awaits.
#[tactic(auto, unfolding(crate::specs::Loop::event_of, crate::specs::Loop::Fits))]
fn free(
    job: Job,
    ws: &mut [u64],
    locals: &mut [u64],
    graph: &mut [u32],
    plan: Plan,
    g: Compact,
    n: usize,
    pause: Pause,
) -> Moved
    requires { (Starts job.words.now ws.old locals.old plan g) × (Awaits job.words.now ws.old locals.old plan g pause) × (pause ≡ Pause.Limit → ⊥) × (Fits ws.old g pause → MarkableAt ws.old graph.old g n (event_of g pause)) }
    ensures { Moves job.entry.words.now ws.old locals.old graph.old plan g n (event_of g pause) ws.new locals.new graph.new result }
{
    match pause {
        Pause::Promotion => promoted(job.words, ws, locals, graph, plan, g, n),
        Pause::Fork(seat) => forked(job.words, ws, locals, graph, plan, g, n, seat),
        Pause::Turn(v, top) => turned(job, ws, locals, graph, plan, g, n, v, top),
        Pause::Join(v, top) => joined(job, ws, locals, graph, plan, g, n, v, top),
        Pause::Limit => Moved {
            step: Progress::Paused(pause),
            words: n,
        },
    }
}

// A step by strides, and at the limit what comes then.
fn resolved(
    job: Job,
    ws: &[u64],
    locals: &[u64],
    plan: Plan,
    g: Compact,
    step: Progress,
) -> Progress
    requires { step ≡ Progress.Paused Pause.Limit → (Starts job.words.now ws.now locals.now plan g) × (g.limit ≤ g.transitions) }
    ensures { Resolved job.entry.words.now ws.now locals.now plan g step result }
{
    match step {
        Progress::Paused(Pause::Limit) => strides::at_limit(job, ws, locals, plan, g),
        _ => step,
    }
}

// Moves from a run's start to its end. n is the number of words of its graph so far.
fn drive(
    job: Job,
    ws: &mut [u64],
    locals: &mut [u64],
    graph: &mut [u32],
    plan: Plan,
    count: usize,
) -> Graphed
    requires { Begins job.words.now ws.old locals.old plan count }
    ensures { (Ran job.entry.words.now (take count locals.old) (length ws.old) plan result.answer) × (Wrote job.entry.words.now (take count locals.old) (length ws.old) plan graph.old result.words graph.new) }
{
    let mut from = begin(plan, count);
    let mut n: usize = 0;
    loop {
        let reached = onward(job, ws, locals, plan, from);
        let g = reached.registers;
        let first = reached.step;
        let step = resolved(job, ws, locals, plan, g, first);
        let Progress::Paused(pause) = step else {
            return finish(graph, plan, g, n, step);
        };
        let moved = free(job, ws, locals, graph, plan, g, n, pause);
        let end = moved.step;
        n = moved.words;
        let Progress::Free(next, _) = end else {
            return finish(graph, plan, g, n, end);
        };
        from = next;
    }
}

// Runs an accepted input by a plan, with the sixteen words of its locals lent, and leaves zeros in the workspace.
fn run(
    job: Job,
    arguments: &[u64],
    ws: &mut [u64],
    locals: &mut [u64],
    graph: &mut [u32],
    plan: Plan,
) -> Graphed
    requires { (Accepted job.words.now arguments.now ws.old plan) × (length locals.old ≡ 16) }
    ensures { (Ran job.entry.words.now arguments.now (length ws.old) plan result.answer) × (ws.new ≡ left_by result.answer ws.old) × (Wrote job.entry.words.now arguments.now (length ws.old) plan graph.old result.words graph.new) }
{
    let count = arguments.len();
    frames::copy(locals, 0, arguments, 0, count);
    let ran = drive(job, ws, locals, graph, plan, count);
    frames::clear(ws);
    ran
}

// The same, with locals of its own and the places where the bodies start, worked out once.
fn launch(
    words: &[u32],
    arguments: &[u64],
    ws: &mut [u64],
    graph: &mut [u32],
    plan: Plan,
) -> Graphed
    requires { Accepted words.now arguments.now ws.old plan }
    ensures { (Ran words.now arguments.now (length ws.old) plan result.answer) × (ws.new ≡ left_by result.answer ws.old) × (Wrote words.now arguments.now (length ws.old) plan graph.old result.words graph.new) }
{
    let starts = table::starts(words);
    let job = Job {
        words,
        starts: &starts,
    };
    let mut locals = [0u64; 16];
    run(job, arguments, ws, &mut locals, graph, plan)
}

// Any of the three machines, for any input: the check first; a run by the plan if it accepts. Beside the answer it tells the number of words that
// the graph needs, and leaves in the buffer those that it has room for.
fn machine(
    words: &[u32],
    arguments: &[u64],
    settings: Settings,
    plan: Plan,
    workspace: &mut [u64],
    graph: &mut [u32],
) -> Graphed
    requires { (plan.fuel.0 ≡ settings.fuel.0) × (plan.tau ≡ settings.tau) }
    ensures { (Tells words.now arguments.now settings.fuel.0 settings.period settings.tau (length workspace.old) plan.birth plan.period result.answer) × (workspace.new ≡ left_by result.answer workspace.old) × (LendsBy words.now arguments.now settings.fuel.0 settings.period settings.tau (length workspace.old) plan.birth plan.period graph.old result.words graph.new) }
{
    let read = language::checked(words, arguments.len(), settings, workspace.len());
    match read {
        Ok(()) => launch(words, arguments, workspace, graph, plan),
        Err(refusal) => Graphed {
            answer: Answer::Refused(refusal),
            words: 1,
        },
    }
}

// With a buffer: stop 25 where the graph does not fit, and zeros after it, or everywhere after a stop.
fn concluded(graph: &mut [u32], ran: Graphed) -> Graphed
    ensures { (result ≡ fitted_of ran.answer ran.words (length graph.old)) × (graph.new ≡ cleared_by result graph.old) }
{
    let answer = ran.answer;
    let told = graph_answers::fitted(answer, ran.words, graph.len());
    let ending = told.answer;
    match ending {
        Answer::Value(_, _) => {
            graph::clear(graph, told.words);
        }
        Answer::Stopped(_) => {
            graph::clear(graph, 0);
        }
        Answer::Refused(_) => {}
    }
    told
}

impl Schedule {
    // The plan of a run.
    fn plan(self, settings: Settings) -> Plan
        ensures { (Suits settings.fuel.0 (schedule_of self settings.period) result.birth result.period) × (result.tau ≡ settings.tau) × (result.fuel.0 ≡ settings.fuel.0) }
    {
        let (birth, period) = match self {
            Schedule::Sequential => (false, NEVER),
            Schedule::Parallel => (true, NEVER),
            Schedule::Heartbeat => (false, settings.period),
        };
        Plan {
            birth,
            period,
            tau: settings.tau,
            fuel: settings.fuel,
        }
    }

    // The machine of this schedule.
    pub fn run(
        self,
        words: &[u32],
        arguments: &[u64],
        settings: Settings,
        workspace: &mut [u64],
    ) -> Answer
        ensures answer { result ≡ answer_of (schedule_of self settings.period) words.now arguments.now settings.fuel.0 settings.period settings.tau (length workspace.old) }
        ensures leaves { workspace.new ≡ left_by result workspace.old }
        ensures listed { StopListed words.now settings.fuel.0 result }
    {
        let mut none = [0u32; 0];
        let plan = self.plan(settings);
        let ran = machine(words, arguments, settings, plan, workspace, &mut none);
        ran.answer
    }

    // The same with a buffer lent for its cost graph.
    pub fn run_graph(
        self,
        words: &[u32],
        arguments: &[u64],
        settings: Settings,
        workspace: &mut [u64],
        graph: &mut [u32],
    ) -> Graphed
        ensures answer { result ≡ graphed_of (schedule_of self settings.period) words.now arguments.now settings.fuel.0 settings.period settings.tau (length workspace.old) (length graph.old) }
        ensures leaves { workspace.new ≡ left_by result.answer workspace.old }
        ensures writes { graph.new ≡ graph_left (schedule_of self settings.period) words.now arguments.now settings.fuel.0 settings.period settings.tau (length workspace.old) graph.old }
        ensures listed { StopToldLent words.now settings.fuel.0 result.answer }
    {
        let plan = self.plan(settings);
        let ran = machine(words, arguments, settings, plan, workspace, graph);
        concluded(graph, ran)
    }
}

// All three machines on one workspace, one after the other, with demand 3 of their answers, the same depth at a value, and stops that agree.
pub fn all_three(
    words: &[u32],
    arguments: &[u64],
    settings: Settings,
    workspace: &mut [u64],
) -> ByMachine<Answer>
    ensures { AllThree words.now arguments.now settings.fuel.0 settings.period settings.tau workspace.old workspace.new result }
{
    let sequential = Schedule::Sequential.run(words, arguments, settings, workspace);
    let parallel = Schedule::Parallel.run(words, arguments, settings, workspace);
    let heartbeat = Schedule::Heartbeat.run(words, arguments, settings, workspace);
    ByMachine {
        sequential,
        parallel,
        heartbeat,
    }
}

// All three machines on one workspace, one after the other, each with a buffer of its own for its cost graph, with demand 3 of their answers.
pub fn all_three_graphs(
    words: &[u32],
    arguments: &[u64],
    settings: Settings,
    workspace: &mut [u64],
    first: &mut [u32],
    second: &mut [u32],
    third: &mut [u32],
) -> ByMachine<Graphed>
    ensures { AllThreeGraphs words.now arguments.now settings.fuel.0 settings.period settings.tau workspace.old first.old second.old third.old workspace.new first.new second.new third.new result }
{
    let sequential = Schedule::Sequential.run_graph(words, arguments, settings, workspace, first);
    let parallel = Schedule::Parallel.run_graph(words, arguments, settings, workspace, second);
    let heartbeat = Schedule::Heartbeat.run_graph(words, arguments, settings, workspace, third);
    ByMachine {
        sequential,
        parallel,
        heartbeat,
    }
}
