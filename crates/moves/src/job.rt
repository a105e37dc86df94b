ghost use Rattle.std.specs.Prelude.{◌≡◌};
ghost use Rattle.table.specs.Read.{starts_of};

// An accepted table, with the places where its bodies start, worked out once for a run.
#[derive(Clone, Copy)]
pub struct Job<'a> {
    pub words: &'a [u32],
    pub starts: &'a [usize],
    pub ghost located: { starts.now ≡ starts_of words.now },
}

impl<'a> Job<'a> {
    ghost use Rattle.std.specs.Prelude.{◌<◌};
    ghost use Rattle.table.specs.Words.{functions, start_of};
    ghost use Rattle.table.specs.WellFormed.{WellFormed};

    // Where the body of a function starts.
    pub fn start(self, function: usize) -> usize
        requires { (WellFormed self.words.now) × (function < functions self.words.now) }
        ensures { result ≡ start_of self.entry.words.now function }
    {
        self.starts[function]
    }
}
