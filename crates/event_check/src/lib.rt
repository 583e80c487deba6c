// The events of a table. The loop goes over the used words of their sections with no early exit and in numbers of 16 bits, so
// that it is compiled to vector instructions that take eight words at a time. Sums are taken in the same loop, of each word its
// lower byte: a word in range has no more.
#![tactic(auto)]

ghost use Rattle.std.specs.Prelude.{◌≡◌, ◌≤◌, length};
ghost use Rattle.words.specs.Runs.{every, total, low_at};
ghost use Rattle.tables.specs.Layout.{counts_at, table_length};
ghost use Rattle.event_check.specs.Events.{event_words_ok, event_ok, few_at};

use tables::{places, read};

// What is only bounded by a power of two, or has to be 0, is joined and tested once. The lower byte of flags has four; the
// upper one has names, any of which may be there. The tests are joined by `&`: `&&` and a range's `contains` would be exits.
#[tactic(auto, using(crate::proofs::Joined::joined_event))]
fn event_ok(code: u16, count: u16, set: u16, clear: u16, flags: u16, low: u16, high: u16) -> bool
    ensures { result ≡ event_words_ok code count set clear flags low high }
{
    let spare = flags / 16 % 16;
    (2 <= code)
        & (code <= 34)
        & (1 <= count)
        & (count <= 9)
        & ((count == 1) | (code <= 5))
        & ((set | clear | high) < 8192)
        & (spare == 0)
        & (read::is_flag(4, flags) | ((low | high) == 0))
}

// What the loop over events finds: whether all are in range, the sum of the lower bytes of their counts, and whether no count
// is above 3. The sum is one also where an event is out of range, so that this is no `Option`.
#[derive(Clone, Copy)]
pub struct EventTally {
    pub ok: bool,
    pub counts: u16,
    pub few: bool,
}

#[tactic(auto, using(words::proofs::RunLaws::every_next, words::proofs::RunLaws::total_more, crate::proofs::Joined::few_joined), unfolding(words::specs::Runs::every, words::specs::Runs::total, words::specs::Runs::low_at, crate::specs::Events::event_ok, crate::specs::Events::few_at))]
pub fn events_tally(l: &[u8], n: usize) -> EventTally
    requires { (table_length ≤ length l.now) × (n ≤ 256) }
    ensures { (result.ok ≡ every (event_ok l.now) 0 n) × (result.counts ≡ total (low_at l.now) counts_at n) × (result.few ≡ every (few_at l.now) 0 n) }
{
    let mut ok = true;
    let mut counts: u16 = 0;
    let mut joined: u16 = 0;
    for i in 0..n {
        let count = words::word_at(l, places::COUNTS + i);
        ok &= event_ok(
            words::word_at(l, places::CODES + i),
            count,
            words::word_at(l, places::SETS + i),
            words::word_at(l, places::CLEARS + i),
            words::word_at(l, places::FLAGS + i),
            words::word_at(l, places::LOWS + i),
            words::word_at(l, places::HIGHS + i),
        );
        counts += count % 256;
        joined |= count;
    }
    EventTally {
        ok,
        counts,
        few: joined < 4,
    }
}
