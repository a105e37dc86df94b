// Reads a job table a line from standard input, a label up to a colon and then the words in decimal, and writes the label with what
// the reader answers. The answers in the file stdout were worked out from documents 01 and 02.

#![tactic(auto)]

use table::Refusal;

// A number in decimal, at most the largest word.
fn number(digits: &[u8]) -> u32 {
    match std::str::from_utf8(digits) {
        Ok(text) => text.parse().unwrap_or(u32::MAX),
        Err(_) => u32::MAX,
    }
}

// The numbers of a text, with anything but digits between them, as many as a line has room for.
fn numbers(text: &[u8]) -> arrayvec::ArrayVec<u32, 1024> {
    let mut words = arrayvec::ArrayVec::new();
    for digits in text.split(|byte| !byte.is_ascii_digit()) {
        if !digits.is_empty() {
            let _ = words.try_push(number(digits));
        }
    }
    words
}

fn write_number(name: &[u8], n: usize) {
    io::write_all(1, name);
    io::print_decimal(1, n as u64);
}

fn write_reading(reading: Result<(), Refusal>) {
    match reading {
        Ok(()) => {
            io::write_all(1, b"accepted\n");
        }
        Err(refusal) => {
            write_number(b"refused ", refusal.number as usize);
            write_number(b" function ", refusal.function);
            write_number(b" node ", refusal.node);
            io::write_all(1, b"\n");
        }
    }
}

// A line: its label up to a colon, and the words after it.
fn tell(line: &[u8]) {
    let mut parts = line.splitn(2, |byte| *byte == b':');
    let label = parts.next().unwrap_or(line);
    let words = numbers(parts.next().unwrap_or(b""));
    io::write_all(1, label);
    io::write_all(1, b": ");
    write_reading(table::read(&words));
}

fn main() {
    let mut text = io::large_buffer();
    let end = io::read_full(0, &mut text);
    for line in text[..end].split_inclusive(|byte| *byte == b'\n') {
        tell(line.strip_suffix(b"\n").unwrap_or(line));
    }
}
