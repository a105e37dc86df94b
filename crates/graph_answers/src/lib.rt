// What a machine answers that is lent a buffer for its cost graph (document 02, P1).

#![tactic(auto)]

ghost use Rattle.std.specs.Prelude.{◌≡◌};
ghost use Rattle.graph_answers.specs.Fitted.{fitted_of};

use language::{Answer, Stop};

// The answer, and the number of words written.
#[derive(Clone, Copy)]
pub struct Graphed {
    pub answer: Answer,
    pub words: usize,
}

// The answer with a buffer of `room` words, from the answer without one and the number of words that its graph needs: stop 25 where they do not fit.
pub fn fitted(answer: Answer, words: usize, room: usize) -> Graphed
    ensures { result ≡ fitted_of answer words room }
{
    match answer {
        Answer::Value(_, counts) => {
            if words <= room {
                return Graphed { answer, words };
            }
            let stop = Stop {
                number: 25,
                function: 0,
                node: 0,
                transitions: counts.transitions,
                deepest: counts.deepest,
            };
            Graphed {
                answer: Answer::Stopped(stop),
                words: 0,
            }
        }
        Answer::Stopped(_) => Graphed { answer, words: 0 },
        Answer::Refused(_) => Graphed { answer, words: 0 },
    }
}
