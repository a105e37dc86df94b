// The lines of a report: what three machines answered, written to a lent buffer as text.
//
// A `Text` is the buffer with the place that the writing has reached. Each of its methods writes one text there, which specs/Lines.antt defines.

#![tactic(auto)]

ghost use Rattle.std.specs.Prelude.{◌≡◌, ◌++◌, ◌+◌, ◌%◌, ◌≤◌, length};
ghost use Rattle.language.specs.Values.{SpanPositive, WorkAtMost};
ghost use Rattle.lines.specs.Lines.{decimal, refusal_line, depth_field, value_line, stop_line, answer_line, breadth_of, decimals, quotient_line, breadth_line, report_lines};
ghost use Rattle.lines.specs.Buffer.{Wrote};

use language::{Answer, Counts, Stop};
use table::Refusal;

// A text that is being written to a lent buffer: what is written next begins at byte `at`.
#[derive(Drop)]
struct Text<'a> {
    out: &'a mut [u8],
    at: usize,
}

impl Text<'_> {
    fn put(&mut self, text: &[u8])
        requires { self.old.at + length text.now ≤ length self.old.out.now }
        ensures wrote { Wrote self.old.out.now self.old.at text.now self.new.out.now self.new.at }
        ensures same { self.new.out.ghost_name ≡ self.old.out.ghost_name }
    {
        let end = self.at + text.len();
        self.out[self.at..end].copy_from_slice(text);
        self.at = end;
    }

    // A word and a number after it.
    fn number(&mut self, tag: &[u8], n: u64)
        requires { self.old.at + length tag.now + 20 ≤ length self.old.out.now }
        ensures wrote { Wrote self.old.out.now self.old.at (tag.now ++ decimal n) self.new.out.now self.new.at }
        ensures short { self.new.at ≤ self.old.at + length tag.now + 20 }
        ensures same { self.new.out.ghost_name ≡ self.old.out.ghost_name }
    {
        let mut digits = [0u8; 20];
        let k = io::decimal(n, &mut digits);
        self.put(tag);
        self.put(&digits[..k]);
    }

    fn refusal_line(&mut self, refusal: Refusal)
        requires { self.old.at + 85 ≤ length self.old.out.now }
        ensures wrote { Wrote self.old.out.now self.old.at (refusal_line refusal) self.new.out.now self.new.at }
        ensures short { self.new.at ≤ self.old.at + 85 }
        ensures same { self.new.out.ghost_name ≡ self.old.out.ghost_name }
    {
        self.number(b"refused ", refusal.number as u64);
        self.number(b" function ", refusal.function as u64);
        self.number(b" node ", refusal.node as u64);
        self.put(b"\n");
    }

    // The last field of a value's line and of a stop's, the depth, with the line's end.
    fn depth_field(&mut self, deepest: usize)
        requires { self.old.at + 27 ≤ length self.old.out.now }
        ensures wrote { Wrote self.old.out.now self.old.at (depth_field deepest) self.new.out.now self.new.at }
        ensures short { self.new.at ≤ self.old.at + 27 }
        ensures same { self.new.out.ghost_name ≡ self.old.out.ghost_name }
    {
        self.number(b" deep ", deepest as u64);
        self.put(b"\n");
    }

    fn value_line(&mut self, v: u64, counts: Counts)
        requires { self.old.at + 132 ≤ length self.old.out.now }
        ensures wrote { Wrote self.old.out.now self.old.at (value_line v counts) self.new.out.now self.new.at }
        ensures short { self.new.at ≤ self.old.at + 132 }
        ensures same { self.new.out.ghost_name ≡ self.old.out.ghost_name }
    {
        self.number(b"value ", v);
        self.number(b" work ", counts.work.0);
        self.number(b" span ", counts.span.0);
        self.number(b" forks ", counts.forks);
        self.depth_field(counts.deepest);
    }

    fn stop_line(&mut self, s: Stop)
        requires { self.old.at + 141 ≤ length self.old.out.now }
        ensures wrote { Wrote self.old.out.now self.old.at (stop_line s) self.new.out.now self.new.at }
        ensures short { self.new.at ≤ self.old.at + 141 }
        ensures same { self.new.out.ghost_name ≡ self.old.out.ghost_name }
    {
        self.number(b"stop ", s.number as u64);
        self.number(b" function ", s.function as u64);
        self.number(b" node ", s.node as u64);
        self.number(b" transitions ", s.transitions);
        self.depth_field(s.deepest);
    }

    // A machine's name, with a space after it, and what it answered.
    fn line(&mut self, name: &[u8], answer: Answer)
        requires { (self.old.at + 152 ≤ length self.old.out.now) × (length name.now ≤ 11) }
        ensures wrote { Wrote self.old.out.now self.old.at (name.now ++ answer_line answer) self.new.out.now self.new.at }
        ensures short { self.new.at ≤ self.old.at + 152 }
        ensures same { self.new.out.ghost_name ≡ self.old.out.ghost_name }
    {
        self.put(name);
        match answer {
            Answer::Value(v, counts) => self.value_line(v, counts),
            Answer::Stopped(s) => self.stop_line(s),
            Answer::Refused(r) => self.refusal_line(r),
        }
    }

    // A point, and the last two digits of n.
    fn put_decimals(&mut self, n: u64)
        requires { self.old.at + 3 ≤ length self.old.out.now }
        ensures wrote { Wrote self.old.out.now self.old.at (decimals n) self.new.out.now self.new.at }
        ensures same { self.new.out.ghost_name ≡ self.old.out.ghost_name }
    {
        let tenths = digit(n / 10);
        let hundredths = digit(n);
        self.put(&[b'.', tenths, hundredths]);
    }

    // The line of a breadth of n hundredths.
    fn quotient_line(&mut self, n: u64)
        requires { self.old.at + 32 ≤ length self.old.out.now }
        ensures wrote { Wrote self.old.out.now self.old.at (quotient_line n) self.new.out.now self.new.at }
        ensures short { self.new.at ≤ self.old.at + 32 }
        ensures same { self.new.out.ghost_name ≡ self.old.out.ghost_name }
    {
        self.number(b"breadth ", n / 100);
        self.put_decimals(n);
        self.put(b"\n");
    }

    fn breadth_line(&mut self, sequential: Answer, parallel: Answer)
        requires { (self.old.at + 32 ≤ length self.old.out.now) × WorkAtMost 100000000 sequential × SpanPositive parallel }
        ensures wrote { Wrote self.old.out.now self.old.at (breadth_line sequential parallel) self.new.out.now self.new.at }
        ensures short { self.new.at ≤ self.old.at + 32 }
        ensures same { self.new.out.ghost_name ≡ self.old.out.ghost_name }
    {
        let Answer::Value(_, a) = sequential else {
            return self.put(b"breadth none\n");
        };
        if let Answer::Value(_, p) = parallel {
            return self.quotient_line(breadth(a, p));
        }
        self.put(b"breadth none\n");
    }

    // The lines of three answers; where the input was refused, its one line.
    fn report_lines(&mut self, sequential: Answer, parallel: Answer, heartbeat: Answer)
        requires { (self.old.at + 512 ≤ length self.old.out.now) × WorkAtMost 100000000 sequential × SpanPositive parallel }
        ensures wrote { Wrote self.old.out.now self.old.at (report_lines sequential parallel heartbeat) self.new.out.now self.new.at }
        ensures same { self.new.out.ghost_name ≡ self.old.out.ghost_name }
    {
        if let Answer::Refused(r) = sequential {
            return self.refusal_line(r);
        }
        self.line(b"sequential ", sequential);
        self.line(b"parallel ", parallel);
        self.line(b"heartbeat ", heartbeat);
        self.breadth_line(sequential, parallel);
    }
}

// Sequential work divided by parallel span in hundredths, rounded down, by the counts of the two runs. No value's span is 0, and no
// sequential work is above 10^8: theorems of crate language (`spans_positive`, `sequential_work`), which the caller cites.
fn breadth(sequential: Counts, parallel: Counts) -> u64
    requires { (sequential.work.0 ≤ 100000000) × (1 ≤ parallel.span.0) }
    ensures { result ≡ breadth_of sequential.work.0 parallel.span.0 }
{
    sequential.work.0 * 100 / parallel.span.0
}

// The last decimal digit of n.
fn digit(n: u64) -> u8
    ensures { result ≡ 48 + n % 10 }
{
    b'0' + (n % 10) as u8
}

// The line of a refusal, from byte `at` on, and where it ends.
pub fn refusal_line(out: &mut [u8], at: usize, refusal: Refusal) -> usize
    requires { at + 85 ≤ length out.old }
    ensures wrote { Wrote out.old at (refusal_line refusal) out.new result }
    ensures short { result ≤ at + 85 }
{
    let mut text = Text { out, at };
    text.refusal_line(refusal);
    text.at
}

// The lines of three answers, from the first byte on, and where they end.
pub fn tell(out: &mut [u8], sequential: Answer, parallel: Answer, heartbeat: Answer) -> usize
    requires { (512 ≤ length out.old) × WorkAtMost 100000000 sequential × SpanPositive parallel }
    ensures { Wrote out.old 0 (report_lines sequential parallel heartbeat) out.new result }
{
    let mut text = Text { out, at: 0 };
    text.report_lines(sequential, parallel, heartbeat);
    text.at
}
