// Answers as numbers of 64 bits: document 01's number in the lowest byte, and its values above it.
ghost use Rattle.std.specs.Prelude.{◌≡◌, ◌+◌, ◌*◌, ◌≤◌, ◌<◌};
ghost use Rattle.model.specs.Numbers.{compiled_place, written_length, counted_count, located_start, located_length, matched_selection};
ghost use Rattle.capi.specs.Match.{selection_mark, matched_word};
ghost use Rattle.capi.specs.Answers.{compiled_word, merged_word, written_word, counted_word, located_word};

use model::answers::{Compiled, Counted, Located, Matched, Merged, Written};

fn wide(b: u8) -> u64
    ensures { (result ≡ b) × (result < 256) }
{
    b as u64
}

// A number with one value. The bound is that of a written text's length, the largest value there is.
pub fn with_value(number: u8, value: usize) -> u64
    requires { value ≤ 377600000 }
    ensures { result ≡ number + 256 * value }
{
    wide(number) + 256 * (value as u64)
}

pub fn compiled_word(a: Compiled) -> u64
    requires { compiled_place a ≤ 8192 }
    ensures { result ≡ compiled_word a }
{
    match a {
        Compiled::Accepted => 0,
        Compiled::Refused { number, place } => with_value(number, place),
    }
}

pub fn merged_word(a: Merged) -> u64
    ensures { result ≡ merged_word a }
{
    match a {
        Merged::Accepted => 0,
        Merged::Refused(number) => wide(number),
    }
}

pub fn written_word(a: Written) -> u64
    requires { written_length a ≤ 377600000 }
    ensures { result ≡ written_word a }
{
    match a {
        Written::Accepted(len) => with_value(0, len),
        Written::Refused(number) => wide(number),
    }
}

pub fn counted_word(a: Counted) -> u64
    requires { counted_count a ≤ 64 }
    ensures { result ≡ counted_word a }
{
    match a {
        Counted::Accepted(count) => with_value(0, count),
        Counted::Refused(number) => wide(number),
    }
}

// A part of a text, with the mark of the text.
fn part_word(second: u64, start: usize, len: usize) -> u64
    requires { (second ≤ 1) × (start + len ≤ 8192) }
    ensures { result ≡ 256 * second + 65536 * start + 4294967296 * len }
{
    256 * second + 65536 * (start as u64) + 4294967296 * (len as u64)
}

pub fn located_word(a: Located) -> u64
    requires { located_start a + located_length a ≤ 8192 }
    ensures { result ≡ located_word a }
{
    match a {
        Located::First { start, len } => part_word(0, start, len),
        Located::Second { start, len } => part_word(1, start, len),
        Located::Refused(number) => wide(number),
    }
}

pub fn matched_word(a: Matched) -> u64
    requires { selection_mark (matched_selection a) ≤ 64 }
    ensures { result ≡ matched_word a }
{
    match a {
        Matched::Refused(number) => wide(number),
        Matched::Dropped => 0,
        Matched::Heard => 0,
        Matched::Selected(production) => with_value(0, production + 1),
    }
}
