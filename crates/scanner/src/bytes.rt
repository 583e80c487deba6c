// Bytes and runs of bytes.
ghost use Rattle.std.specs.Prelude.{◌≡◌, ◌≤◌, length, get_or};
ghost use Rattle.model.specs.Bytes.{is_allowed, is_blank, is_digit, is_letter, belongs, run_end, skip};

use model::scan::Class;

pub fn is_blank(b: u8) -> bool
    ensures { result ≡ is_blank b }
{
    (b == b' ') | (b == b'\t')
}

pub fn is_digit(b: u8) -> bool
    ensures { result ≡ is_digit b }
{
    (b >= b'0') & (b <= b'9')
}

pub fn is_letter(b: u8) -> bool
    ensures { result ≡ is_letter b }
{
    ((b >= b'A') & (b <= b'Z')) | ((b >= b'a') & (b <= b'z'))
}

// Whether a text may hold the byte.
pub fn is_allowed(b: u8) -> bool
    ensures { result ≡ is_allowed b }
{
    (b == b'\t') | (b == b'\n') | ((b >= 32) & (b <= 126)) | (b >= 160)
}

// The byte at a position, 0 past the end.
pub fn byte_at(l: &[u8], at: usize) -> u8
    ensures { result ≡ get_or l.now at 0 }
{
    if at < l.len() {
        return l[at];
    }
    0
}

// Whether a run of the class may hold the byte.
pub fn belongs(c: Class, b: u8) -> bool
    ensures { result ≡ belongs c b }
{
    match c {
        Class::Blank => is_blank(b),
        Class::Name => is_letter(b) | is_digit(b),
        Class::Keysym => is_letter(b) | is_digit(b) | (b == b'_'),
        Class::Digit => is_digit(b),
        Class::Detail => !(is_blank(b) | (b == b',') | (b == b':') | (b == b'\n')),
        Class::Call => is_letter(b) | is_digit(b) | (b == b'_') | (b == b'-'),
        Class::Unquoted => {
            !(is_blank(b) | (b == b',') | (b == b'"') | (b == b')') | (b == b'\n'))
        }
        Class::Quoted => !((b == b'"') | (b == b'\n')),
        Class::Line => b != b'\n',
    }
}

// The end of the longest run of the class that begins at a position.
pub fn run_end(l: &[u8], at: usize, c: Class) -> usize
    requires { at ≤ length l.now }
    ensures { result ≡ run_end c l.now at }
{
    let mut i = at;
    while i < l.len() {
        if !belongs(c, l[i]) {
            return i;
        }
        i += 1;
    }
    i
}

// The position past the blanks that stand at a position.
pub fn skip(l: &[u8], at: usize) -> usize
    requires { at ≤ length l.now }
    ensures { result ≡ skip l.now at }
{
    run_end(l, at, Class::Blank)
}
