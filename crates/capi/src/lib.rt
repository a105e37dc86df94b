// The three machines for programs in other languages (include/mondupil.h).
//
// `mondupil_run` calls one machine by its number and tells the answer in nine words, or in the first eight of them to a caller that lends no
// more. `mondupil_run_graph` does the same with a buffer lent for the run's cost graph, and tells the number of words written in a tenth. What
// they tell, for any input, and what they leave in the buffers that they are lent, is defined in specs/.

#![tactic(auto)]

ghost use Rattle.std.specs.Prelude.{◌≡◌, length};
ghost use Rattle.capi.specs.Words.{answer_words, written};
ghost use Rattle.capi.specs.Calls.{Serves, Called};
ghost use Rattle.capi.specs.Graphs.{graph_words, GraphCalled};

use graph_answers::Graphed;
use language::{Answer, Settings};
use machine::Schedule;
use schedule::Fuel;

// What a call returns: it was served, or it was turned away and changed nothing.
// Kept: the C interface has numbers for these, as for the machines and, in `words_of`, for the kinds of answer.
const SERVED: u32 = 0;

const TURNED_AWAY: u32 = 1;

// The words that tell an answer, in their order: kind, value or number, function, node, transitions, forks, work, span, depth.
fn words_of(answer: Answer) -> [u64; 9]
    ensures { result ≡ answer_words answer }
{
    match answer {
        Answer::Value(v, k) => [
            0,
            v,
            0,
            0,
            k.transitions,
            k.forks,
            k.work.0,
            k.span.0,
            k.deepest as u64,
        ],
        Answer::Stopped(s) => [
            1,
            s.number as u64,
            s.function as u64,
            s.node as u64,
            s.transitions,
            0,
            0,
            0,
            s.deepest as u64,
        ],
        Answer::Refused(r) => [
            2,
            r.number as u64,
            r.function as u64,
            r.node as u64,
            0,
            0,
            0,
            0,
            0,
        ],
    }
}

// Writes as many of the words as the buffer has room for.
fn write(out: &mut [u64], words: &[u64])
    ensures { out.new ≡ written out.old words.now }
{
    let n = out.len().min(words.len());
    out[..n].copy_from_slice(&words[..n]);
}

// The schedule of a call that is served: its machine is known, and it lends eight answer words or more.
fn serves(machine: u32, room: usize) -> Option<Schedule>
    ensures { Serves machine room result }
{
    if room < 8 {
        return None;
    }
    Schedule::try_from(machine).ok()
}

// Runs a machine, 0 sequential, 1 parallel or 2 heartbeat, and returns 0 with the answer's words, as many as are lent, at the front of
// `answer`; for an unknown machine or fewer than eight answer words it returns 1 and changes nothing.
// Kept: the C interface has fuel, N and τ as three parameters, here and in `mondupil_run_graph`.
#[unsafe(no_mangle)]
pub extern "C" fn mondupil_run(
    machine: u32,
    table: &[u32],
    args: &[u64],
    fuel: u64,
    period: u64,
    tau: u64,
    workspace: &mut [u64],
    answer: &mut [u64],
) -> u32
    ensures { Called machine table.now args.now fuel period tau workspace.old answer.old workspace.new answer.new result }
{
    let Some(schedule) = serves(machine, answer.len()) else {
        return TURNED_AWAY;
    };
    let settings = Settings {
        fuel: Fuel(fuel),
        period,
        tau,
    };
    let told = schedule.run(table, args, settings, workspace);
    write(answer, &words_of(told));
    SERVED
}

// The words that tell an answer with a buffer lent: the nine, and the number of words written.
fn graph_words_of(told: Graphed) -> [u64; 10]
    ensures { result ≡ graph_words told }
{
    let mut words = [0; 10];
    words[..9].copy_from_slice(&words_of(told.answer));
    words[9] = told.words as u64;
    words
}

// Runs a machine with a buffer lent for its cost graph, and returns 0 with the answer's words, as many as are lent, at the front of `answer`;
// for an unknown machine or fewer than eight answer words it returns 1 and changes nothing.
#[unsafe(no_mangle)]
pub extern "C" fn mondupil_run_graph(
    machine: u32,
    table: &[u32],
    args: &[u64],
    fuel: u64,
    period: u64,
    tau: u64,
    workspace: &mut [u64],
    graph: &mut [u32],
    answer: &mut [u64],
) -> u32
    ensures { GraphCalled machine table.now args.now fuel period tau workspace.old graph.old answer.old workspace.new graph.new answer.new result }
{
    let Some(schedule) = serves(machine, answer.len()) else {
        return TURNED_AWAY;
    };
    let settings = Settings {
        fuel: Fuel(fuel),
        period,
        tau,
    };
    let told = schedule.run_graph(table, args, settings, workspace, graph);
    write(answer, &graph_words_of(told));
    SERVED
}
