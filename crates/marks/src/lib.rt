// What a free move writes of the cost graph (document 02, P1): words in the lent buffer, and their places in the move's frame.
//
// `words` is how many there are so far, and `pending` the transitions since the last of them. Where no word is lent nothing is written and nothing is kept,
// so that a run without a buffer has one test more for a free move, and none for a transition.
//
// Kept: what may not change, that nothing is asked of such a run (`Markable` and `Small` only where `0 < length graph`). So the two counts come as they
// are, and become a `Written`, whose bounds are a field, past the test.

#![tactic(auto)]

ghost use Rattle.std.specs.Prelude.{◌≡◌, ◌<◌, length};
ghost use Rattle.graph.specs.Writing.{count_ended, lent_ended};
ghost use Rattle.marks.specs.Marks.{Small, Markable, Marked};

use compact::Event;
use graph::Written;

// A fork begins: the frame `at` keeps its place. The number of words after it.
pub fn begin(ws: &mut [u64], graph: &mut [u32], words: usize, pending: u64, at: usize) -> usize
    requires { 0 < length graph.old → Markable ws.old words pending (Event.Fork at) }
    ensures { Marked ws.old graph.old words pending (Event.Fork at) ws.new graph.new result }
{
    if graph.len() == 0 {
        return words;
    }
    let place = Written { words, pending }.fork(graph);
    frames::keep_place(ws, frames::WORDS * at, place);
    place + 3
}

// The left graph of the fork at the frame `at` ends: the frame keeps where the right one begins. The number of words after it.
pub fn turn(ws: &mut [u64], graph: &mut [u32], words: usize, pending: u64, at: usize) -> usize
    requires { 0 < length graph.old → Markable ws.old words pending (Event.Turn at) }
    ensures { Marked ws.old graph.old words pending (Event.Turn at) ws.new graph.new result }
{
    if graph.len() == 0 {
        return words;
    }
    let b = frames::WORDS * at;
    let place = frames::place_of(ws, b);
    let end = Written { words, pending }.end_branch(graph, place + 1, place + 3);
    frames::keep_right(ws, b, end);
    end
}

// The right graph of the fork at the frame `at` ends. The number of words after it.
pub fn join(ws: &[u64], graph: &mut [u32], words: usize, pending: u64, at: usize) -> usize
    requires { 0 < length graph.old → Markable ws.now words pending (Event.Join at) }
    ensures { Marked ws.now graph.old words pending (Event.Join at) ws.now graph.new result }
{
    if graph.len() == 0 {
        return words;
    }
    let b = frames::WORDS * at;
    let place = frames::place_of(ws, b);
    Written { words, pending }.end_branch(graph, place + 2, frames::right_of(ws, b))
}

// The number of words at the end of a run, with the last stretch. A buffer of no words has room for no graph, and nothing was counted: 1 is told.
pub fn finish(graph: &mut [u32], words: usize, pending: u64) -> usize
    requires { 0 < length graph.old → Small words pending }
    ensures some { 0 < length graph.old → (result ≡ count_ended words pending) × (graph.new ≡ lent_ended graph.old words pending) }
    ensures none { length graph.old ≡ 0 → result ≡ 1 }
{
    if graph.len() == 0 {
        return 1;
    }
    Written { words, pending }.end_stretch(graph)
}
