ghost use Rattle.std.specs.Prelude.{◌≡◌, ◌+◌, ◌*◌};
ghost use Rattle.table.specs.Words.{start_of};

use frames::Seat;

// A node where it stands: at the word `at` of the body that begins at `start`.
#[derive(Clone, Copy)]
pub struct Site<'a> {
    pub words: &'a [u32],
    pub seat: Seat,
    pub start: usize,
    pub at: usize,
    pub ghost place: { start ≡ start_of words.now seat.function },
    pub ghost word: { at ≡ start + 4 * seat.node },
}
