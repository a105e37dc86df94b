ghost use Rattle.std.specs.Prelude.{◌≡◌, leb};
ghost use Rattle.moves.specs.Layout.{word_of, kind_of};

// The kinds of frames: an arithmetic that awaits its left or its right operand, a choose, a let, a call; a plain fork that awaits its left or
// its right value, and a promoted one.
#[derive(Clone, Copy, Debug, PartialEq, Eq)]
pub enum Kind {
    LeftOperand,
    RightOperand,
    Condition,
    Binding,
    Argument,
    PlainLeft,
    PlainRight,
    PromotedLeft,
    PromotedRight,
}

// The word that a frame keeps of its kind.
impl From<Kind> for u64 {
    ghost from_gives = { λ kind word. word ≡ word_of kind };

    fn from(kind: Kind) -> u64 {
        match kind {
            Kind::LeftOperand => 0,
            Kind::RightOperand => 1,
            Kind::Condition => 2,
            Kind::Binding => 3,
            Kind::Argument => 4,
            Kind::PlainLeft => 5,
            Kind::PlainRight => 6,
            Kind::PromotedLeft => 7,
            Kind::PromotedRight => 8,
        }
    }
}

// The kind that a frame's word tells. Any word above 7 tells the last.
impl From<u64> for Kind {
    ghost from_gives = { λ word kind. kind ≡ kind_of word };

    #[tactic(auto, unfolding(crate::specs::Layout::kind_of), using(crate::proofs::FrameKinds::late_kind))]
    fn from(word: u64) -> Kind {
        match word {
            0 => Kind::LeftOperand,
            1 => Kind::RightOperand,
            2 => Kind::Condition,
            3 => Kind::Binding,
            4 => Kind::Argument,
            5 => Kind::PlainLeft,
            6 => Kind::PlainRight,
            7 => Kind::PromotedLeft,
            _ => Kind::PromotedRight,
        }
    }
}

impl Kind {
    // Whether the frame is a promoted fork.
    pub fn promoted(self) -> bool
        ensures { result ≡ leb 7 (word_of self) }
    {
        u64::from(Kind::PromotedLeft) <= u64::from(self)
    }
}
