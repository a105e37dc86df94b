// The frames of a machine, in the words of a lent workspace. Each function is given the first word of a frame, b, and writes or reads the
// words of that frame; which of them is which is known here alone.
//
// A frame is 32 words of 64 bits (document 01, refusal 11):
//
//     b         its kind
//     b + 1     the function of its node
//     b + 2     its node
//     b + 3     how many locals it saves
//     b + 4     a value: the left operand's or the left branch's, or how many arguments are collected
//     b + 5     the span before the fork
//     b + 6     the span of the left branch
//     b + 8     the saved locals, at most 16
//     b + 24    the collected arguments, at most 3
//     b + 27    where the fork's three words stand in the graph's buffer
//     b + 28    where its right graph begins there
//
// The words b + 7 and b + 29 to b + 31 are not used. What a kind means, and where each frame begins, is the machine's affair.
//
// Kept: a rule of the project (docs/DECISIONS.md, "A frame by its first word", from 02's P3): each function is given b beside the workspace, which is
// lent and fixed memory.

#![tactic(auto)]

ghost use Rattle.std.specs.Prelude.{◌≡◌, ◌+◌, ◌<◌, ◌≤◌, length, drop, replicate};
ghost use Rattle.std.proofs.Math.Seq.{paste};
ghost use Rattle.frames.specs.Frames.{locals_word, arguments_word, frame_kind, frame_value, frame_before, frame_left, frame_place_at, frame_right, seat_at, saved, pushed, turned, collected, marked, placed, right_placed, loaded, appended};

use schedule::Span;

// The words of a frame, and where its parts stand in it.
pub const WORDS: usize = 32;

const FUNCTION: usize = 1;

const NODE: usize = 2;

const COUNT: usize = 3;

const VALUE: usize = 4;

const BEFORE: usize = 5;

const LEFT: usize = 6;

pub const LOCALS: usize = 8;

const ARGUMENTS: usize = 24;

const PLACE: usize = 27;

const RIGHT: usize = 28;

// Where a frame's node stands, with how many locals are bound there.
#[derive(Clone, Copy)]
pub struct Seat {
    pub function: usize,
    pub node: usize,
    pub count: usize,
}

// Copies n words of `src`, from word `from` on, over those of `dst` from word `at` on, in a loop: compiled to a call of memcpy.
// Kept: tried, and slower: as `copy_from_slice` it has such a call at 33 places of the machine's loop where this has 19 (docs/DESIGN-PASS.md, "Speed").
fn copy_many(dst: &mut [u64], at: usize, src: &[u64], from: usize, n: usize)
    requires { (at + n ≤ length dst.old) × (from + n ≤ length src.now) }
    ensures { dst.new ≡ paste dst.old at (drop from src.now) n }
{
    for i in 0..n {
        dst[at + i] = src[from + i];
    }
}

// The same. The first four words, and most frames save no more, are cheaper one by one.
// Kept: tried, and slower: as one `copy_from_slice` each of the 16 jobs of bench/ took longer on each machine, 19% in the mean, 4% to 37%.
pub fn copy(dst: &mut [u64], at: usize, src: &[u64], from: usize, n: usize)
    requires { (at + n ≤ length dst.old) × (from + n ≤ length src.now) }
    ensures { dst.new ≡ paste dst.old at (drop from src.now) n }
{
    if n == 0 {
        return;
    }
    dst[at] = src[from];
    if n == 1 {
        return;
    }
    dst[at + 1] = src[from + 1];
    if n == 2 {
        return;
    }
    dst[at + 2] = src[from + 2];
    if n == 3 {
        return;
    }
    dst[at + 3] = src[from + 3];
    copy_many(dst, at + 4, src, from + 4, n - 4);
}

// Saves the first k locals in a frame.
pub fn save_locals(ws: &mut [u64], b: usize, locals: &[u64], k: usize)
    requires { (b + 32 ≤ length ws.old) × (k ≤ 16) × (length locals.now ≡ 16) }
    ensures { ws.new ≡ saved ws.old b locals.now k }
{
    copy(ws, b + LOCALS, locals, 0, k);
}

// Writes a new frame: it saves the locals that are bound and has no value yet.
pub fn push(ws: &mut [u64], b: usize, kind: u64, seat: Seat, locals: &[u64], before: Span)
    requires { (b + 32 ≤ length ws.old) × (seat.count ≤ 16) × (length locals.now ≡ 16) }
    ensures { ws.new ≡ pushed ws.old b kind seat.function seat.node seat.count locals.now before.0 }
{
    let k = seat.count;
    ws[b] = kind;
    ws[b + FUNCTION] = seat.function as u64;
    ws[b + NODE] = seat.node as u64;
    ws[b + COUNT] = k as u64;
    ws[b + VALUE] = 0;
    ws[b + BEFORE] = before.0;
    save_locals(ws, b, locals, k);
}

// What a frame holds, by its parts.
pub fn kind_of(ws: &[u64], b: usize) -> u64
    requires { b + 32 ≤ length ws.now }
    ensures { result ≡ frame_kind ws.now b }
{
    ws[b]
}

pub fn seat_of(ws: &[u64], b: usize) -> Seat
    requires { b + 32 ≤ length ws.now }
    ensures { result ≡ seat_at ws.now b }
{
    Seat {
        function: ws[b + FUNCTION] as usize,
        node: ws[b + NODE] as usize,
        count: ws[b + COUNT] as usize,
    }
}

pub fn value_of(ws: &[u64], b: usize) -> u64
    requires { b + 32 ≤ length ws.now }
    ensures { result ≡ frame_value ws.now b }
{
    ws[b + VALUE]
}

pub fn before_of(ws: &[u64], b: usize) -> Span
    requires { b + 32 ≤ length ws.now }
    ensures { result.0 ≡ frame_before ws.now b }
{
    Span(ws[b + BEFORE])
}

pub fn left_of(ws: &[u64], b: usize) -> Span
    requires { b + 32 ≤ length ws.now }
    ensures { result.0 ≡ frame_left ws.now b }
{
    Span(ws[b + LEFT])
}

pub fn place_of(ws: &[u64], b: usize) -> usize
    requires { b + 32 ≤ length ws.now }
    ensures { result ≡ frame_place_at ws.now b }
{
    ws[b + PLACE] as usize
}

pub fn right_of(ws: &[u64], b: usize) -> usize
    requires { b + 32 ≤ length ws.now }
    ensures { result ≡ frame_right ws.now b }
{
    ws[b + RIGHT] as usize
}

// Turns a frame to its second child: another kind, the first child's value and, at a fork, the span of the left branch.
pub fn turn(ws: &mut [u64], b: usize, kind: u64, v: u64, span: Span)
    requires { b + 32 ≤ length ws.old }
    ensures { ws.new ≡ turned ws.old b kind v span.0 }
{
    ws[b] = kind;
    ws[b + VALUE] = v;
    ws[b + LEFT] = span.0;
}

// Collects v as argument n of a frame, which has collected those before it.
pub fn collect(ws: &mut [u64], b: usize, n: usize, v: u64)
    requires { (b + 32 ≤ length ws.old) × (n < 3) }
    ensures { ws.new ≡ collected ws.old b n v }
{
    ws[b + ARGUMENTS + n] = v;
    ws[b + VALUE] = (n + 1) as u64;
}

// Promotes a frame: another kind, and the span before the fork.
pub fn mark(ws: &mut [u64], b: usize, kind: u64, span: Span)
    requires { b + 32 ≤ length ws.old }
    ensures { ws.new ≡ marked ws.old b kind span.0 }
{
    ws[b] = kind;
    ws[b + BEFORE] = span.0;
}

// Keeps where a fork's three words stand in the graph's buffer.
pub fn keep_place(ws: &mut [u64], b: usize, place: usize)
    requires { b + 32 ≤ length ws.old }
    ensures { ws.new ≡ placed ws.old b place }
{
    ws[b + PLACE] = place as u64;
}

// Keeps where its right graph begins there.
pub fn keep_right(ws: &mut [u64], b: usize, right: usize)
    requires { b + 32 ≤ length ws.old }
    ensures { ws.new ≡ right_placed ws.old b right }
{
    ws[b + RIGHT] = right as u64;
}

// Brings the k locals that a frame saves back.
pub fn load_locals(locals: &mut [u64], ws: &[u64], b: usize, k: usize)
    requires { (b + 32 ≤ length ws.now) × (k ≤ 16) × (length locals.old ≡ 16) }
    ensures { locals.new ≡ loaded locals.old ws.now (locals_word b) k }
{
    copy(locals, 0, ws, b + LOCALS, k);
}

// Makes the n arguments that a frame has collected the first locals.
pub fn load_arguments(locals: &mut [u64], ws: &[u64], b: usize, n: usize)
    requires { (b + 32 ≤ length ws.now) × (n ≤ 3) × (length locals.old ≡ 16) }
    ensures { locals.new ≡ loaded locals.old ws.now (arguments_word b) n }
{
    copy(locals, 0, ws, b + ARGUMENTS, n);
}

// Binds one local more, v, after the first k.
pub fn append(locals: &mut [u64], k: usize, v: u64)
    requires { (k < 16) × (length locals.old ≡ 16) }
    ensures { locals.new ≡ appended locals.old k v }
{
    locals[k] = v;
}

// Sets every word to 0.
pub fn clear(ws: &mut [u64])
    ensures { ws.new ≡ replicate (length ws.old) 0 }
{
    ws.fill(0);
}
