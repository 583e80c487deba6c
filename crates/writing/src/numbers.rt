// Numbers in a base, with no leading zero.
ghost use Rattle.std.specs.Prelude.{◌≡◌, ◌+◌, ◌≤◌, ◌<◌};
ghost use Rattle.model.specs.Canonical.{digit, digits_in, hexadecimal, decimal};
ghost use Rattle.writing.specs.Overlay.{Put};

use crate::bytes;

fn digit_byte(v: u32) -> u8
    requires { v < 16 }
    ensures { result ≡ digit v }
{
    b"0123456789abcdef"[v as usize]
}

// At most `fuel` digits. The digits before the last are those of the number without it; a loop would come to the last one first.
fn put_digits(out: &mut [u8], at: usize, base: u32, fuel: usize, v: u32) -> usize
    requires { (at ≤ 9000000000) × (2 ≤ base) × (base ≤ 16) × (fuel ≤ 9) }
    ensures { (Put out.old out.new at result (digits_in base fuel v)) × (result ≤ at + fuel) }
{
    if fuel == 0 {
        return at;
    }
    if v < base {
        return bytes::put_byte(out, at, digit_byte(v));
    }
    let next = put_digits(out, at, base, fuel - 1, v / base);
    bytes::put_byte(out, next, digit_byte(v % base))
}

pub fn put_decimal(out: &mut [u8], at: usize, v: u32) -> usize
    requires { at ≤ 9000000000 }
    ensures { (Put out.old out.new at result (decimal v)) × (result ≤ at + 9) }
{
    put_digits(out, at, 10, 9, v)
}

pub fn put_hexadecimal(out: &mut [u8], at: usize, v: u32) -> usize
    requires { at ≤ 8900000000 }
    ensures { (Put out.old out.new at result (hexadecimal v)) × (result ≤ at + 10) }
{
    let mut next = bytes::put_byte(out, at, b'0');
    next = bytes::put_byte(out, next, b'x');
    put_digits(out, next, 16, 8, v)
}
