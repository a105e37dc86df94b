// The report program: reads a job's words from standard input and writes the report on it to standard output.
//
// It reads up to one byte more than the longest input, so that a longer one is told by its length. What is written is `report`'s affair.

#![tactic(auto)]

fn main() {
    let mut input = [0u8; 65537];
    let mut workspace = [0u64; 8192];
    let mut out = [0u8; 512];
    let length = io::read_full(0, &mut input);
    let written = report::report(&input[..length], &mut workspace, &mut out);
    io::write_all(1, &out[..written]);
}
