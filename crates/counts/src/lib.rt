// Counts and time: what a counted event stands for, and the multi-click time.
#![tactic(auto)]

ghost use Rattle.std.specs.Prelude.{◌≡◌, ◌<◌, ◌≤◌};
ghost use Rattle.model.specs.Counts.{quick};
ghost use Rattle.counts.specs.Elements.{releases, element_count, element_code, is_timed};

// `later` comes less than the multi-click time after `earlier`. Server times wrap at 2^32.
#[tactic(auto, unfolding(model::specs::Counts::quick))]
pub fn quick(limit: u32, earlier: u32, later: u32) -> bool
    ensures { result ≡ quick limit earlier later }
{
    later.wrapping_sub(earlier) < limit
}

// A key or button release.
#[tactic(auto, unfolding(crate::specs::Elements::releases))]
pub fn is_release(code: u8) -> bool
    ensures { result ≡ releases code }
{
    matches!(code, 3 | 5)
}

// How many events an event of this code and count stands for.
#[tactic(auto, unfolding(crate::specs::Elements::element_count))]
pub fn element_count(code: u8, count: u8) -> usize
    requires { count ≤ 9 }
    ensures { result ≡ element_count code count }
{
    if count <= 1 {
        return 1;
    }
    let n = usize::from(count);
    if is_release(code) { 2 * n } else { 2 * n - 1 }
}

// The code of element k.
#[tactic(auto, unfolding(crate::specs::Elements::element_code))]
pub fn element_code(code: u8, count: u8, k: usize) -> u8
    requires { (1 ≤ code) × (code < 255) }
    ensures { result ≡ element_code code count k }
{
    if count <= 1 {
        return code;
    }
    match (is_release(code), k % 2 == 0) {
        (true, true) => code - 1,
        (false, false) => code + 1,
        _ => code,
    }
}

// Element k must come quickly after the one two before it.
#[tactic(auto, unfolding(crate::specs::Elements::is_timed))]
pub fn is_timed(code: u8, count: u8, k: usize) -> bool
    requires { (1 ≤ code) × (code < 255) }
    ensures { result ≡ is_timed code count k }
{
    2 <= k && element_code(code, count, k) == code
}
