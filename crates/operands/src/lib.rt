// Simple operands by their words: a constant, a local, or an arithmetic of two of these. Each function is given the word at which the node
// stands.

#![tactic(auto)]

ghost use Rattle.std.specs.Prelude.{◌≡◌, ◌+◌, ◌*◌, ◌≤◌};
ghost use Rattle.arithmetic.specs.Operate.{computed};
ghost use Rattle.operands.specs.Operands.{numbered, leaf_at, cost_at, frames_of, both_of, simple_at, LeafAt, SimpleAt, CostAt};

use arithmetic::Failure;
use table::Operation;

// The value of a constant or a local.
pub fn leaf(words: &[u32], at: usize, values: &[u64], from: usize) -> u64
    requires { LeafAt words.now at values.now from }
    ensures { result ≡ leaf_at words.now at values.now from }
{
    if words[at] == 0 {
        u64::from(words[at + 1]) + 4294967296 * u64::from(words[at + 2])
    } else {
        values[from + words[at + 1] as usize]
    }
}

// What the operation of this number gives.
pub fn operate(operation: u32, x: u64, y: u64) -> Result<u64, Failure>
    ensures { result ≡ computed (numbered operation) x y }
{
    let operation = Operation::try_from(operation).unwrap_or(Operation::Equal);
    arithmetic::operate(operation, x, y)
}

// The transitions of a simple operand: 1, or 5 for an arithmetic; 0 for any other node.
// Kept: 0 and no None. No plainer, because `compact::fits` refuses a cost of 0, alone or of several operands together, with its other tests.
pub fn cost(words: &[u32], at: usize) -> u64
    requires { CostAt words.now at }
    ensures { result ≡ cost_at words.now at }
{
    match words[at] {
        0 | 1 => 1,
        2 if words[at + 4] < 2 && words[at + 8] < 2 => 5,
        _ => 0,
    }
}

// The frames that it opens, by its transitions.
pub fn frames_of(k: u64) -> usize
    ensures { result ≡ frames_of k }
{
    usize::from(k == 5)
}

// Two costs together, 0 if one of them is.
pub fn both(k: u64, l: u64) -> u64
    requires { (k ≤ 1000) × (l ≤ 1000) }
    ensures { result ≡ both_of k l }
{
    if k == 0 || l == 0 { 0 } else { k + l }
}

// The value of a simple operand.
pub fn simple(words: &[u32], at: usize, values: &[u64], from: usize) -> Result<u64, Failure>
    requires { SimpleAt words.now at values.now from }
    ensures { result ≡ simple_at words.now at values.now from }
{
    if words[at] < 2 {
        Ok(leaf(words, at, values, from))
    } else {
        let x = leaf(words, at + 4, values, from);
        let y = leaf(words, at + 8, values, from);
        operate(words[at + 1], x, y)
    }
}
