// The calls of a table and their parameters: whether each name and each parameter is a part of its text. The loops have no early
// exit and go in numbers of 16 bits, so that they are compiled to vector instructions that take eight words at a time. Sums are
// taken of each word's lower byte: a word in range has no more.
#![tactic(auto)]

ghost use Rattle.std.specs.Prelude.{◌≡◌, true, false, cond, leb, eqb, ◌+◌, ◌*◌, ◌≤◌, length};
ghost use Rattle.words.specs.Words.{word_at};
ghost use Rattle.words.specs.Runs.{every, total, low_at};
ghost use Rattle.tables.specs.Layout.{call_parameters_at, table_length};
ghost use Rattle.span_check.specs.Spans.{length_of_text, call_ok, parameter_ok, parameters_ok, in_turn};

use tables::places;

// ---- Calls

// The length of the text that a mark names; of the first text in a table that is not merged, which has no other.
#[tactic(auto, unfolding(crate::specs::Spans::length_of_text))]
fn text_of<const MERGED: bool>(mark: u16, first: u16, second: u16) -> u16
    ensures { result ≡ cond MERGED (length_of_text mark first second) first }
{
    if MERGED & (mark == 1) { second } else { first }
}

// 0 where a span is part of a text of this length, with no sum that would need more than 16 bits.
#[tactic(auto, using(crate::proofs::Joined::joined_span))]
fn span_faults(start: u16, len: u16, text: u16) -> u16
    ensures { eqb result 0 ≡ leb (start + len) text }
{
    start.saturating_sub(text) | len.saturating_sub(text.saturating_sub(start))
}

// What the loop over calls finds: whether all are in range, and the sum of the lower bytes of their numbers of parameters. The
// sum is one also where a call is out of range, so that this is no `Option`.
#[derive(Clone, Copy)]
pub struct Tally {
    pub ok: bool,
    pub total: u16,
}

// The calls of a merged table, or of any other: there every mark has to be 0 and every name is in the first text, so that none is
// chosen. How far each number is past its bounds is joined and tested once.
#[tactic(auto, using(crate::proofs::Joined::joined_call, words::proofs::RunLaws::every_next, words::proofs::RunLaws::total_more), unfolding(words::specs::Runs::every, words::specs::Runs::total, words::specs::Runs::low_at, crate::specs::Spans::call_ok))]
fn calls_in<const MERGED: bool>(l: &[u8], n: usize, merged: u16) -> Tally
    requires { ((table_length ≤ length l.now) × (n ≤ 128)) × ((merged ≡ word_at l.now 1) × (MERGED ≡ false → merged ≡ 0)) }
    ensures { (result.ok ≡ every (call_ok l.now) 0 n) × (result.total ≡ total (low_at l.now) call_parameters_at n) }
{
    let first = words::word_at(l, places::FIRST_LENGTH);
    let second = words::word_at(l, places::SECOND_LENGTH);
    let mut faults: u16 = 0;
    let mut total: u16 = 0;
    for i in 0..n {
        let mark = words::word_at(l, places::MARKS + i);
        let start = words::word_at(l, places::NAME_STARTS + i);
        let len = words::word_at(l, places::NAME_LENGTHS + i);
        let count = words::word_at(l, places::CALL_PARAMETERS + i);
        let text = text_of::<MERGED>(mark, first, second);
        faults |= mark.saturating_sub(merged)
            | count.saturating_sub(8)
            | span_faults(start, len, text);
        total += count % 256;
    }
    Tally {
        ok: faults == 0,
        total,
    }
}

pub fn calls_tally(l: &[u8], n: usize) -> Tally
    requires { (table_length ≤ length l.now) × (n ≤ 128) }
    ensures { (result.ok ≡ every (call_ok l.now) 0 n) × (result.total ≡ total (low_at l.now) call_parameters_at n) }
{
    match words::word_at(l, places::MERGED) {
        0 => calls_in::<false>(l, n, 0),
        merged => calls_in::<true>(l, n, merged),
    }
}

// ---- Parameters

// Whether n parameters, from one on, are parts of a text of this length.
#[tactic(auto, using(words::proofs::RunLaws::every_more, words::proofs::Zeros::or_zero), unfolding(words::specs::Runs::every, crate::specs::Spans::parameter_ok))]
fn parameters_in(l: &[u8], text: u16, from: usize, n: usize) -> bool
    requires { (table_length ≤ length l.now) × (from + n ≤ 256) }
    ensures { result ≡ every (parameter_ok l.now text) from n }
{
    let mut faults: u16 = 0;
    for i in 0..n {
        let at = from + i;
        let start = words::word_at(l, places::PARAMETER_STARTS + at);
        let len = words::word_at(l, places::PARAMETER_LENGTHS + at);
        faults |= span_faults(start, len, text);
    }
    faults == 0
}

// The same in two runs that cover the n, so that none are left over when sixteen are taken at a time.
#[tactic(auto, using(words::proofs::Zeros::every_halves))]
fn parameters_within(l: &[u8], text: u16, from: usize, n: usize) -> bool
    requires { (table_length ≤ length l.now) × (from + n ≤ 256) }
    ensures { result ≡ every (parameter_ok l.now text) from n }
{
    if n < 16 {
        return parameters_in(l, text, from, n);
    }
    let h = words::half(n);
    parameters_in(l, text, from, h) & parameters_in(l, text, from + (n - h), h)
}

// The parameters of n calls, each in its call's text.
#[tactic(auto, using(words::proofs::RunLaws::total_part, words::proofs::RunLaws::every_next, words::proofs::RunLaws::total_more), unfolding(words::specs::Runs::every, words::specs::Runs::total, crate::specs::Spans::parameters_ok))]
fn parameters_ok(l: &[u8], n: usize) -> bool
    requires { (table_length ≤ length l.now) × (n ≤ 128) × (total (word_at l.now) call_parameters_at n ≤ 256) }
    ensures { result ≡ every (parameters_ok l.now) 0 n }
{
    let first = words::word_at(l, places::FIRST_LENGTH);
    let second = words::word_at(l, places::SECOND_LENGTH);
    let mut ok = true;
    let mut from: usize = 0;
    for i in 0..n {
        let text = text_of::<true>(words::word_at(l, places::MARKS + i), first, second);
        let count = usize::from(words::word_at(l, places::CALL_PARAMETERS + i));
        ok &= parameters_in(l, text, from, count);
        from += count;
    }
    ok
}

// The sum of the lower bytes of n words from word k on: in numbers of 16 bits, which those of words::sum are not.
#[tactic(auto, using(words::proofs::RunLaws::total_more), unfolding(words::specs::Runs::total, words::specs::Runs::low_at))]
fn low_sum(l: &[u8], k: usize, n: usize) -> u16
    requires { (2 * (k + n) ≤ length l.now) × (n ≤ 256) }
    ensures { result ≡ total (low_at l.now) k n }
{
    let mut s: u16 = 0;
    for i in 0..n {
        s += words::word_at(l, k + i) % 256;
    }
    s
}

// The parameters of k calls in a text of one length, and the others in a text of another.
#[tactic(auto, unfolding(crate::specs::Spans::in_turn))]
fn texts_in_turn(l: &[u8], before: u16, after: u16, k: usize, parameters: usize) -> bool
    requires { ((table_length ≤ length l.now) × (k ≤ 128)) × ((total (low_at l.now) call_parameters_at k ≤ parameters) × (parameters ≤ 256)) }
    ensures { result ≡ in_turn l.now before after (total (low_at l.now) call_parameters_at k) parameters }
{
    let p = usize::from(low_sum(l, places::CALL_PARAMETERS, k));
    parameters_within(l, before, 0, p) & parameters_within(l, after, p, parameters - p)
}

// The parameters of n calls in a merged table. Such a table has the calls of one text first and then those of the other:
// the sum of the marks is how many calls are of the second text, and the sum over as many first ones tells whether they
// are these. Where the texts take turns more often, it goes call by call.
#[tactic(auto, using(crate::proofs::Shortcuts::seconds_le, crate::proofs::Shortcuts::first_parameters, crate::proofs::Shortcuts::second_first, crate::proofs::Shortcuts::first_first))]
fn merged_ok(l: &[u8], n: usize, parameters: usize) -> bool
    requires { ((table_length ≤ length l.now) × (n ≤ 128)) × ((total (word_at l.now) call_parameters_at n ≡ parameters) × (parameters ≤ 256) × (every (call_ok l.now) 0 n ≡ true) × (word_at l.now 1 ≤ 1)) }
    ensures { result ≡ every (parameters_ok l.now) 0 n }
{
    let first = words::word_at(l, places::FIRST_LENGTH);
    let second = words::word_at(l, places::SECOND_LENGTH);
    let seconds = usize::from(low_sum(l, places::MARKS, n));
    if usize::from(low_sum(l, places::MARKS, seconds)) == seconds {
        return texts_in_turn(l, second, first, seconds, parameters);
    }
    if low_sum(l, places::MARKS, n - seconds) == 0 {
        return texts_in_turn(l, first, second, n - seconds, parameters);
    }
    parameters_ok(l, n)
}

// The parameters of n calls. Only a merged table has calls of two texts; in any other one loop goes over all parameters.
#[tactic(auto, using(crate::proofs::Shortcuts::plain_parameters))]
pub fn spans_ok(l: &[u8], n: usize, parameters: usize) -> bool
    requires { ((table_length ≤ length l.now) × (n ≤ 128)) × ((total (word_at l.now) call_parameters_at n ≡ parameters) × (parameters ≤ 256) × (every (call_ok l.now) 0 n ≡ true) × (word_at l.now 1 ≤ 1)) }
    ensures { result ≡ every (parameters_ok l.now) 0 n }
{
    if words::word_at(l, places::MERGED) == 0 {
        return parameters_within(l, words::word_at(l, places::FIRST_LENGTH), 0, parameters);
    }
    merged_ok(l, n, parameters)
}
