// The report of document 01: what three machines answer to one input, in lines of text.
//
// `report` reads a job from bytes, runs it on all three machines in a lent workspace, and writes the lines to a lent buffer. What it
// writes and leaves, for any input, is defined in specs/: Input.antt (what the bytes say) and Report.antt; the lines are those of crate `lines`.

#![tactic(auto)]

ghost use Rattle.std.specs.Prelude.{◌≡◌, ◌+◌, ◌*◌, ◌≤◌, ◌<◌, length, get_or, take, drop};
ghost use Rattle.io.specs.Counts.{IsPrefixLen as ByteCount};
ghost use Rattle.report.specs.Input.{word_of, words_of, pairs_of, or_house, job_of, complete};
ghost use Rattle.lines.specs.Buffer.{Wrote};
ghost use Rattle.report.specs.Report.{no_job, WordsReported, Reported};

use language::Settings;
use schedule::Fuel;
use table::Refusal;

// The most bytes of an input: 01, "Input above 65,536 bytes .. is refusal 1".
const MOST: usize = 65536;

// Room for any report.
const ROOM: usize = 512;

// The word at a byte of the input, low byte first.
fn word(input: &[u8], at: usize) -> u32
    requires { at + 4 ≤ length input.now }
    ensures { result ≡ word_of (get_or input.now at 0) (get_or input.now (at + 1) 0) (get_or input.now (at + 2) 0) (get_or input.now (at + 3) 0) }
{
    u32::from_le_bytes([input[at], input[at + 1], input[at + 2], input[at + 3]])
}

// The first words of the input, as many as are asked for.
fn unpack(input: &[u8], words: &mut [u32])
    requires { 4 * length words.old ≤ length input.now }
    ensures { words.new ≡ take (length words.old) (words_of input.now) }
{
    for i in 0..words.len() {
        words[i] = word(input, 4 * i);
    }
}

// A 64-bit number, by its low and its high word.
fn pair(low: u32, high: u32) -> u64
    ensures { result ≡ low + 4294967296 * high }
{
    u64::from(low) + 4294967296 * u64::from(high)
}

// The first arguments, as many as are asked for, each as low then high word, after the first four words.
fn load(words: &[u32], arguments: &mut [u64])
    requires { 4 + 2 * length arguments.old ≤ length words.now }
    ensures { arguments.new ≡ pairs_of (length arguments.old) (drop 4 words.now) }
{
    for i in 0..arguments.len() {
        arguments[i] = pair(words[4 + 2 * i], words[5 + 2 * i]);
    }
}

// 01: "0 for fuel, N or τ takes the house default".
fn or_house(given: u32, house: u64) -> u64
    ensures { result ≡ or_house given house }
{
    if given == 0 { house } else { u64::from(given) }
}

// The settings that the first three words give: N by default follows the τ in use.
fn settings(words: &[u32]) -> Settings
    requires { 3 ≤ length words.now }
    ensures { (result.fuel.0 ≡ (job_of words.now).fuel) × (result.period ≡ (job_of words.now).period) × (result.tau ≡ (job_of words.now).tau) }
{
    let tau = or_house(words[2], Settings::TAU);
    let house = Settings::house(tau);
    let fuel = house.fuel;
    Settings {
        fuel: Fuel(or_house(words[0], fuel.0)),
        period: or_house(words[1], house.period),
        tau,
    }
}

// Whether the words have a job's first four and its arguments, at most three.
fn has_job(words: &[u32]) -> bool
    ensures { result ≡ complete words.now }
{
    if words.len() < 4 {
        return false;
    }
    if 3 < words[3] {
        return false;
    }
    4 + 2 * u64::from(words[3]) <= words.len() as u64
}

// 01: `refused 1 function 0 node 0`, of an input that has no job.
fn unreadable(out: &mut [u8]) -> usize
    requires { 512 ≤ length out.old }
    ensures { Wrote out.old 0 no_job out.new result }
{
    lines::refusal_line(
        out,
        0,
        Refusal {
            number: 1,
            function: 0,
            node: 0,
        },
    )
}

// The report on an input's words, in a buffer that has room for it.
#[tactic(auto, using(crate::proofs::Telling::has))]
fn report_words(words: &[u32], workspace: &mut [u64], out: &mut [u8]) -> usize
    requires { 512 ≤ length out.old }
    ensures { WordsReported words.now workspace.old out.old workspace.new out.new result }
{
    if !has_job(words) {
        return unreadable(out);
    }
    let count = words[3] as usize;
    let from = 4 + 2 * count;
    let mut buffer = [0u64; 3];
    let arguments = &mut buffer[..count];
    load(words, arguments);
    let given = settings(words);
    let answers = machine::all_three(&words[from..], arguments, given, workspace);
    let sequential = answers.sequential;
    let parallel = answers.parallel;
    let heartbeat = answers.heartbeat;
    lines::tell(out, sequential, parallel, heartbeat)
}

// Writes the report on an input to the front of `out`, and answers how many bytes it has. An `out` of fewer than 512 bytes gets none.
pub fn report(input: &[u8], workspace: &mut [u64], out: &mut [u8]) -> usize
    ensures told { Reported input.now workspace.old out.old workspace.new out.new result }
    ensures within { ByteCount result out.new }
{
    if out.len() < ROOM {
        return 0;
    }
    let length = input.len();
    if MOST < length {
        return unreadable(out);
    }
    if length % 4 != 0 {
        return unreadable(out);
    }
    let mut buffer = [0u32; MOST / 4];
    let words = &mut buffer[..length / 4];
    unpack(input, words);
    report_words(words, workspace, out)
}
