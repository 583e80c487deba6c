// Lines, and the bytes that a text may hold.
ghost use Rattle.std.specs.Prelude.{◌≡◌, ◌≤◌, length};
ghost use Rattle.model.specs.Lists.{given};
ghost use Rattle.model.specs.Bytes.{first_bad_byte};
ghost use Rattle.model.specs.Lines.{line_end, is_blank_line};
ghost use Rattle.scanner.specs.BadByte.{bad_byte_of};

use crate::bytes::{is_allowed, run_end, skip};
use model::scan::Class;

// The first byte of a text that no text may hold.
#[derive(Clone, Copy)]
pub enum BadByte {
    Absent,
    At(usize),
}

// Whether some byte of the text is not allowed. No early exit: most texts are read to the end, and several bytes at once.
pub fn has_bad_byte(text: &[u8]) -> bool
    ensures { result ≡ given (first_bad_byte text.now) }
{
    let mut bad = false;
    for i in 0..text.len() {
        bad = bad | !is_allowed(text[i]);
    }
    bad
}

// Where that byte stands.
pub fn find_bad_byte(text: &[u8]) -> BadByte
    ensures { bad_byte_of result ≡ first_bad_byte text.now }
{
    let mut i = 0;
    while i < text.len() {
        if !is_allowed(text[i]) {
            return BadByte::At(i);
        }
        i += 1;
    }
    BadByte::Absent
}

pub fn first_bad_byte(text: &[u8]) -> BadByte
    ensures { bad_byte_of result ≡ first_bad_byte text.now }
{
    if has_bad_byte(text) {
        return find_bad_byte(text);
    }
    BadByte::Absent
}

// The end of the line that begins at a position, without its newline.
pub fn line_end(text: &[u8], at: usize) -> usize
    requires { at ≤ length text.now }
    ensures { result ≡ line_end text.now at }
{
    run_end(text, at, Class::Line)
}

pub fn is_blank_line(l: &[u8]) -> bool
    ensures { result ≡ is_blank_line l.now }
{
    skip(l, 0) == l.len()
}
