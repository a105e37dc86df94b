// Writes the words of a cost graph (document 02, P1) while a run goes on.
//
// A stretch of k transitions is the words 0, k; a fork is 1, the left graph's length, the right graph's length, then both graphs. The caller keeps how
// many words there are so far, n, the transitions of the last stretch, k, and for each open fork the place of its three words. Words that do not fit
// are counted and not written. What each function leaves is defined in specs/Writing.antt.

#![tactic(auto)]

ghost use Rattle.std.specs.Prelude.{◌≡◌, ◌++◌, ◌+◌, ◌-◌, ◌≤◌, ◌<◌, ◌^◌, length, take, replicate};
ghost use Rattle.graph.specs.Writing.{count_ended, stretched, lent_ended, lent_forked, lent_filled};

// The first word of a stretch, and of a fork.
// Kept: no plainer as an enum, because they are the words of 02's format, which are written and never matched on.
const STRETCH: u32 = 0;

const FORK: u32 = 1;

// The words of a graph so far, and the transitions of the stretch after them, which is not written yet. A run makes few of both.
#[derive(Clone, Copy)]
pub struct Written {
    pub words: usize,
    pub pending: u64,
    pub ghost few: { (words < 2 ^ 60) × (pending < 2 ^ 32) },
}

impl Written {
    // The number of words with the stretch. A stretch of none is no word.
    fn ended(self) -> usize
        ensures { result ≡ count_ended self.words self.pending }
    {
        if self.pending == 0 {
            self.words
        } else {
            self.words + 2
        }
    }

    // Writes the stretch, which fits.
    fn stretch(self, graph: &mut [u32])
        requires { count_ended self.words self.pending ≤ length graph.old }
        ensures { graph.new ≡ stretched graph.old self.words self.pending }
    {
        let n = self.words;
        if 0 < self.pending {
            graph[n] = STRETCH;
            graph[n + 1] = self.pending as u32;
        }
    }

    // Ends the stretch: the number of words with it.
    pub fn end_stretch(self, graph: &mut [u32]) -> usize
        ensures { (result ≡ count_ended self.words self.pending) × (graph.new ≡ lent_ended graph.old self.words self.pending) }
    {
        let words = self.ended();
        if words <= graph.len() {
            self.stretch(graph);
        }
        words
    }

    // Begins a fork: its place, where its three words stand, with lengths that are not known yet.
    pub fn fork(self, graph: &mut [u32]) -> usize
        ensures { (result ≡ count_ended self.words self.pending) × (graph.new ≡ lent_forked graph.old self.words self.pending) }
    {
        let place = self.ended();
        if place + 3 <= graph.len() {
            self.stretch(graph);
            graph[place] = FORK;
            graph[place + 1] = 0;
            graph[place + 2] = 0;
        }
        place
    }

    // Ends the left or the right graph of a fork, which began at `from`: its length is filled in at `at`. The number of words with it.
    pub fn end_branch(self, graph: &mut [u32], at: usize, from: usize) -> usize
        requires { (at < from) × (from ≤ count_ended self.words self.pending) × (count_ended self.words self.pending < 2 ^ 32) }
        ensures { (result ≡ count_ended self.words self.pending) × (graph.new ≡ lent_filled graph.old self.words self.pending at from) }
    {
        let end = self.ended();
        if end <= graph.len() {
            self.stretch(graph);
            let length = end - from;
            graph[at] = length as u32;
        }
        end
    }
}

// Sets every word from this one on to 0.
pub fn clear(graph: &mut [u32], from: usize)
    requires { from ≤ length graph.old }
    ensures { graph.new ≡ take from graph.old ++ replicate (length graph.old - from) 0 }
{
    graph[from..].fill(0);
}
