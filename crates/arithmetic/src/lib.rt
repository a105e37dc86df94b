// The arithmetic of document 01 ("Values are unsigned 64-bit numbers"): an operation on two of them gives a number, or the stop that ends the run.
//
// `operate` answers for each operation as `computed` of specs/Operate.antt says. Nothing here is wider than 64 bits: the library asks
// whether a sum or a product fits before it makes it.

#![tactic(auto)]

ghost use Rattle.std.specs.Prelude.{◌≡◌};
ghost use Rattle.arithmetic.specs.Operate.{computed, number_of};

use table::Operation;

// Why an operation has no result.
#[derive(Clone, Copy, Debug, PartialEq, Eq)]
pub enum Failure {
    TooLarge,
    BelowZero,
    DivisionByZero,
}

// The number of document 01's stop.
impl From<Failure> for u32 {
    ghost from_gives = { λ failure number. number ≡ number_of failure };

    fn from(failure: Failure) -> u32 {
        match failure {
            Failure::TooLarge => 22,
            Failure::BelowZero => 23,
            Failure::DivisionByZero => 24,
        }
    }
}

// The result of an arithmetic node, from the values of its two children, left first.
#[tactic(auto, unfolding(crate::specs::Operate::computed))]
pub fn operate(operation: Operation, x: u64, y: u64) -> Result<u64, Failure>
    ensures { result ≡ computed operation x y }
{
    let (result, failure) = match operation {
        Operation::Add => (x.checked_add(y), Failure::TooLarge),
        Operation::Subtract => (x.checked_sub(y), Failure::BelowZero),
        Operation::Multiply => (x.checked_mul(y), Failure::TooLarge),
        Operation::Divide => (x.checked_div(y), Failure::DivisionByZero),
        Operation::Remainder => (x.checked_rem(y), Failure::DivisionByZero),
        Operation::Less => return Ok(u64::from(x < y)),
        Operation::Equal => return Ok(u64::from(x == y)),
    };
    result.ok_or(failure)
}
