// Checks a table's text: reads it from standard input and writes its canonical text, or one line that says why and where it is
// refused. That line begins with document 01's number, and no line of a canonical text begins with a digit.
#![tactic(auto)]

mod place;

ghost use Rattle.std.specs.Prelude.{◌≤◌, length};

use crate::place::line_at;
use model::answers::{Compiled, Written};
use std::io::{self, Read, Write};

// A buffer that is longer than any text that is accepted, and than any canonical text.
const BUFFER_LENGTH: usize = 65536;

// A refusal's number in plain words. The compiler gives 2 to 11 here, since the table's buffer is long enough.
fn reason(number: u8) -> &'static str {
    match number {
        2 => "the text is longer than 8,192 bytes",
        3 => "this byte may not stand in a table's text",
        4 => "the line is not in the grammar",
        5 => "an unknown modifier, event type or detail, or a detail where none is taken",
        6 => "a count or a number is out of range",
        7 => "modifiers stand before an event type that takes none",
        8 => "no state of the modifiers meets this event",
        9 => "a colon stands before an event that is no key event, or beside Shift or Lock",
        10 => "counts with + and atoms as details are not supported yet",
        11 => "too many productions, events, calls or parameters, or keysyms in an event",
        _ => "the text is refused",
    }
}

// For example: 4 at byte 120, line 3: the line is not in the grammar. Bytes are counted from 0, lines from 1.
fn put_refusal(out: &mut impl Write, text: &[u8], number: u8, place: usize) -> io::Result<()> {
    let line = line_at(text, place);
    let reason = reason(number);
    writeln!(out, "{number} at byte {place}, line {line}: {reason}")
}

// The canonical text has less than 49,000 bytes, so 65,536 are always enough: for each of 256 events a type of 18 bytes, a count of
// 3, a detail of 14 and a comma; for its modifiers, of which none grows more than from the two bytes `~s` to the seven of
// `~Shift` and a blank, three and a half times the text's 8,192 bytes and three more an event; a colon and a newline for each of
// 64 productions, a blank and two brackets for each of 128 calls, two quotes and a comma for each of 256 parameters; and the
// names and parameters of calls, which are parts of the text.
#[tactic(auto, unfolding(printer::specs::Write::written, printer::specs::Write::write_number))]
fn put_canonical(out: &mut impl Write, table: &[u8], text: &[u8]) -> io::Result<()> {
    let mut canonical = [0u8; BUFFER_LENGTH];
    match printer::write(table, text, text, &mut canonical) {
        Written::Accepted(n) => out.write_all(&canonical[..n]),
        Written::Refused(number) => put_refusal(out, text, number, 0),
    }
}

fn check(out: &mut impl Write, text: &[u8]) -> io::Result<()> {
    let mut table = [0u8; tables::TABLE_LENGTH];
    match compiler::compile(text, &mut table) {
        Compiled::Accepted => put_canonical(out, &table, text),
        Compiled::Refused { number, place } => put_refusal(out, text, number, place),
    }
}

// Whether the input can be read, as a folder or a closed one cannot: a read of no bytes does not fail.
fn is_readable(input: &mut impl Read) -> bool {
    let mut none = [0u8; 1];
    input.read(&mut none[..0]).is_ok()
}

// Reads until the buffer is full, the input ends or a read fails, and says how many bytes it put at the buffer's start. No method
// of `Read` stops at all three without a heap.
fn read_full(input: &mut impl Read, buffer: &mut [u8]) -> usize
    ensures { result ≤ length buffer.new }
{
    let mut done = 0;
    while done < buffer.len() {
        match input.read(&mut buffer[done..]) {
            Ok(0) => break,
            Ok(n) => done += n,
            Err(_) => break,
        }
    }
    done
}

// The buffer is longer than any text that is accepted, so a longer text is seen to be too long.
fn main(rt: HostRuntime) -> io::Result<()> {
    let mut input = rt.stdin();
    let mut out = io::writer(&rt);
    if !is_readable(&mut input) {
        return out.write_all(b"standard input cannot be read\n");
    }
    let mut text = [0u8; BUFFER_LENGTH];
    let n = read_full(&mut input, &mut text);
    check(&mut out, &text[..n])
}
