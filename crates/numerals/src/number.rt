// Numbers in base 8, 10 or 16, and how they are written.
ghost use Rattle.std.specs.Prelude.{◌≡◌, ◌≤◌, ◌<◌, get_or};
ghost use Rattle.model.specs.Bytes.{in_range};
ghost use Rattle.model.specs.Details.{digit_value, number_in, starts_hexadecimal, leading_zero, small_number};

use model::names::DetailRead;

const SMALL_LIMIT: u64 = 255;

// The byte at a position, 0 past the end.
pub fn byte_at(w: &[u8], i: usize) -> u8
    ensures { result ≡ get_or w.now i 0 }
{
    if i < w.len() {
        return w[i];
    }
    0
}

pub fn in_range(low: u8, b: u8, high: u8) -> bool
    ensures { result ≡ in_range low b high }
{
    low <= b && b <= high
}

// A digit's value, 16 for any other byte.
pub fn digit_value(b: u8) -> u64
    ensures { result ≡ digit_value b }
{
    if in_range(b'0', b, b'9') {
        return (b - 48) as u64;
    }
    if in_range(b'a', b, b'f') {
        return (b - 87) as u64;
    }
    if in_range(b'A', b, b'F') {
        return (b - 55) as u64;
    }
    16
}

// A number, malformed before too large. A value past the limit grows no more, so that it fits whatever follows.
pub fn number_in(w: &[u8], base: u64, limit: u64) -> DetailRead
    requires { (0 < base) × (base ≤ 16) × (limit < 4294967296) }
    ensures { result ≡ number_in base limit w.now }
{
    if w.len() == 0 {
        return DetailRead::Unknown;
    }
    let mut value: u64 = 0;
    let mut i = 0;
    while i < w.len() {
        let digit = digit_value(w[i]);
        if base <= digit {
            return DetailRead::Unknown;
        }
        if value <= limit {
            value = value * base + digit;
        }
        i += 1;
    }
    if limit < value {
        return DetailRead::TooLarge;
    }
    DetailRead::Value(value as u32)
}

// `0x` or `0X` at the start.
pub fn starts_hexadecimal(w: &[u8]) -> bool
    ensures { result ≡ starts_hexadecimal w.now }
{
    let second = byte_at(w, 1);
    byte_at(w, 0) == b'0' && (second == b'x' || second == b'X')
}

// A `0` with more bytes after it.
pub fn leading_zero(w: &[u8]) -> bool
    ensures { result ≡ leading_zero w.now }
{
    byte_at(w, 0) == b'0' && w.len() != 1
}

// A decimal number up to 255, with no leading zero.
pub fn small_number(w: &[u8]) -> DetailRead
    ensures { result ≡ small_number w.now }
{
    if leading_zero(w) {
        return DetailRead::Unknown;
    }
    number_in(w, 10, SMALL_LIMIT)
}
