// The header of a table, and that the words beyond the numbers that it gives are 0. The unused words of a kind's sections
// are taken in one loop, with no early exit, so that it is compiled to vector instructions that take eight words at a time.
#![tactic(auto)]

ghost use Rattle.std.specs.Prelude.{◌≡◌, ◌≤◌, length};
ghost use Rattle.words.specs.Words.{word_at};
ghost use Rattle.tables.specs.Layout.{table_length};
ghost use Rattle.header_check.specs.Header.{text_words_ok, count_words_ok, header_ok};
ghost use Rattle.header_check.specs.Unused.{unused_ok};

use tables::places;

// ---- The header

#[tactic(auto, unfolding(crate::specs::Header::text_words_ok))]
fn texts_ok(directive: u16, merged: u16, first: u16, second: u16) -> bool
    ensures { result ≡ text_words_ok directive merged first second }
{
    (directive <= 2)
        & (merged <= 1)
        & (first <= 8192)
        & (second <= 8192)
        & ((merged == 1) | (second == 0))
}

#[tactic(auto, unfolding(crate::specs::Header::count_words_ok))]
fn counts_ok(productions: u16, events: u16, calls: u16, parameters: u16) -> bool
    ensures { result ≡ count_words_ok productions events calls parameters }
{
    (productions <= 64) & (events <= 256) & (calls <= 128) & (parameters <= 256)
}

#[tactic(auto, unfolding(crate::specs::Header::header_ok))]
pub fn header_ok(l: &[u8]) -> bool
    requires { table_length ≤ length l.now }
    ensures { result ≡ header_ok l.now }
{
    let texts = texts_ok(
        words::word_at(l, places::DIRECTIVE),
        words::word_at(l, places::MERGED),
        words::word_at(l, places::FIRST_LENGTH),
        words::word_at(l, places::SECOND_LENGTH),
    );
    texts
        & counts_ok(
            words::word_at(l, places::PRODUCTIONS),
            words::word_at(l, places::EVENTS),
            words::word_at(l, places::CALLS),
            words::word_at(l, places::PARAMETERS),
        )
}

// ---- Unused words

const PRODUCTION_SECTIONS: [usize; 2] = [places::PRODUCTION_EVENTS, places::PRODUCTION_CALLS];

// But for those of the keysyms, which keysym_check tests.
const EVENT_SECTIONS: [usize; 7] = [
    places::CODES,
    places::COUNTS,
    places::SETS,
    places::CLEARS,
    places::FLAGS,
    places::LOWS,
    places::HIGHS,
];

const CALL_SECTIONS: [usize; 4] = [
    places::MARKS,
    places::NAME_STARTS,
    places::NAME_LENGTHS,
    places::CALL_PARAMETERS,
];

const PARAMETER_SECTIONS: [usize; 2] = [places::PARAMETER_STARTS, places::PARAMETER_LENGTHS];

#[tactic(auto, unfolding(crate::specs::Unused::unused_ok))]
pub fn unused_ok(l: &[u8]) -> bool
    requires { (table_length ≤ length l.now) × ((word_at l.now 4 ≤ 64) × (word_at l.now 5 ≤ 256) × (word_at l.now 6 ≤ 128) × (word_at l.now 7 ≤ 256)) }
    ensures { result ≡ unused_ok l.now }
{
    let productions = usize::from(words::word_at(l, places::PRODUCTIONS));
    let events = usize::from(words::word_at(l, places::EVENTS));
    let calls = usize::from(words::word_at(l, places::CALLS));
    let parameters = usize::from(words::word_at(l, places::PARAMETERS));
    words::zero_in(l, PRODUCTION_SECTIONS, productions, 64)
        & words::zero_in(l, EVENT_SECTIONS, events, 256)
        & words::zero_in(l, CALL_SECTIONS, calls, 128)
        & words::zero_in(l, PARAMETER_SECTIONS, parameters, 256)
}
