// Texts put into lent bytes. Each function writes its text at a position as far as it lies within the bytes, and returns the
// position past it: on few bytes it measures the text, on enough it writes it. The two go as two arguments: one value of both
// would hold a `&mut`, and each contract would have to say that it is still the same borrow.
ghost use Rattle.std.specs.Prelude.{ℕ, List, cond, [], ◌∷◌, ◌+◌, ◌*◌, ◌≤◌, ◌<◌, length, take, drop};
ghost use Rattle.words.specs.Runs.{run};
ghost use Rattle.model.specs.Canonical.{joined_by};
ghost use Rattle.names.specs.Places.{name_total};
ghost use Rattle.names.specs.Table.{name_row, longest_name};
ghost use Rattle.writing.specs.Overlay.{Put, separator};
ghost use Rattle.writing.specs.Steps.{PutsEach, MayPut};

use names::table::{Spelling, spelling_at};

// The one store.
pub fn put_byte(out: &mut [u8], at: usize, b: u8) -> usize
    requires { at ≤ 9100000000 }
    ensures { Put out.old out.new at result (b ∷ []) }
{
    if at < out.len() {
        out[at] = b;
    }
    at + 1
}

// A byte where it is asked for.
pub fn put_if(out: &mut [u8], at: usize, is: bool, b: u8) -> usize
    requires { at ≤ 9000000000 }
    ensures { (Put out.old out.new at result (cond is (b ∷ []) [])) × (result ≤ at + 1) }
{
    if is {
        return put_byte(out, at, b);
    }
    at
}

// What parts the n-th of several texts from those before it: nothing before the first.
pub fn put_separator(out: &mut [u8], at: usize, n: usize, b: u8) -> usize
    requires { at ≤ 9000000000 }
    ensures { (Put out.old out.new at result (separator b n)) × (result ≤ at + 1) }
{
    put_if(out, at, n > 0, b)
}

// A part of a text.
pub fn put_part(out: &mut [u8], at: usize, text: &[u8], start: usize, len: usize) -> usize
    requires { (at ≤ 9010000000) × (start + len ≤ length text.now) × (len ≤ 8192) }
    ensures { (Put out.old out.new at result (take len (drop start text.now))) × (result ≤ at + 8192) }
{
    let mut next = at;
    for &b in &text[start..start + len] {
        next = put_byte(out, next, b);
    }
    next
}

// n texts, a byte between each two. `step` puts the k-th at a position and returns the position past it.
pub fn put_joined<F: Fn(&mut [u8], usize, usize) -> usize>(
    out: &mut [u8],
    at: usize,
    n: usize,
    b: u8,
    step: F,
) -> usize
    requires { MayPut F.Fn step n at }
    ensures { (text : ℕ → List ℕ) → (width : ℕ) → PutsEach F.Fn step n text width → (Put out.old out.new at result (joined_by (b ∷ []) (run text 0 n))) × (result ≤ at + (width + 1) * n) }
{
    let mut next = at;
    for k in 0..n {
        next = put_separator(out, next, k, b);
        next = step(out, next, k);
    }
    next
}

// The name at a place of the table of names.
pub fn put_name(out: &mut [u8], at: usize, place: usize) -> usize
    requires { (at ≤ 9000000000) × (place < name_total) }
    ensures { (Put out.old out.new at result (name_row place)) × (result ≤ at + longest_name) }
{
    let Spelling(len, low, high) = spelling_at(place);
    let next = put_part(out, at, &low.to_le_bytes(), 0, len.min(8));
    put_part(out, next, &high.to_le_bytes(), 0, len.saturating_sub(8))
}
