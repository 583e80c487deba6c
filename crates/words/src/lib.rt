// Words of 16 bits in lent bytes: two bytes each, the lower first.
#![tactic(auto)]

ghost use Rattle.std.specs.Prelude.{◌≡◌, ◌+◌, ◌-◌, ◌*◌, ◌≤◌, ◌<◌, length};
ghost use Rattle.std.specs.List.{All};
ghost use Rattle.words.specs.Words.{word_at, put_word, cleared};
ghost use Rattle.words.specs.Runs.{total, zero_in};

#[tactic(auto, unfolding(crate::specs::Words::word_at))]
pub fn word_at(l: &[u8], k: usize) -> u16
    requires { 2 * k + 2 ≤ length l.now }
    ensures { result ≡ word_at l.now k }
{
    u16::from_le_bytes([l[2 * k], l[2 * k + 1]])
}

#[tactic(auto, unfolding(crate::specs::Words::put_word))]
pub fn put_word(out: &mut [u8], k: usize, w: u16)
    requires { 2 * k + 2 ≤ length out.old }
    ensures { out.new ≡ put_word out.old k w }
{
    let [low, high] = w.to_le_bytes();
    out[2 * k] = low;
    out[2 * k + 1] = high;
}

// Sets the first n bytes to 0.
#[tactic(auto, unfolding(crate::specs::Words::cleared, crate::specs::Words::zeros))]
pub fn clear(out: &mut [u8], n: usize)
    requires { n ≤ length out.old }
    ensures { out.new ≡ cleared n out.old }
{
    out[..n].fill(0);
}

// ---- Words that are 0

// A multiple of 16 that is at least half of n and at most n; of fewer than 16, all n. Two runs of so many words, one from the
// first of n words on and one up to the last, cover all n, and neither leaves words over when sixteen are taken at a time.
pub fn half(n: usize) -> usize
    requires { n < 65536 }
    ensures { (result ≤ n) × (n ≤ result + result) }
{
    if n < 16 { n } else { (n + 31) / 32 * 16 }
}

// Whether the words from number `from` up to `to` past each of the places are 0. They are joined and tested once, with no early
// exit, so that the loop is compiled to vector instructions, one `or` for eight words. Each step takes a word from the front
// and one from the back of two runs that cover them, so that none are left over.
#[tactic(auto, using(crate::proofs::RunLaws::every_next, crate::proofs::Zeros::joined_place), unfolding(crate::specs::Runs::every))]
pub fn zero_in<const N: usize>(l: &[u8], places: [usize; N], from: usize, to: usize) -> bool
    requires { All (λ p. 2 * (p + to) ≤ length l.now) places × ((from ≤ to) × (to < 65536)) }
    ensures { result ≡ zero_in l.now places.entry from to }
{
    let h = half(to - from);
    let back = to - h;
    let mut joined: u16 = 0;
    for i in 0..h {
        for p in places {
            joined |= word_at(l, p + from + i) | word_at(l, p + back + i);
        }
    }
    joined == 0
}

// ---- Sums

// The sum of n words from word k on.
#[tactic(auto, using(crate::proofs::RunLaws::total_more), unfolding(crate::specs::Runs::total))]
pub fn sum(l: &[u8], k: usize, n: usize) -> u32
    requires { (2 * (k + n) ≤ length l.now) × (n ≤ 65536) }
    ensures { result ≡ total (word_at l.now) k n }
{
    let mut s: u32 = 0;
    for i in 0..n {
        s += u32::from(word_at(l, k + i));
    }
    s
}
