// The left side of a line, in one walk: each event is read, judged and written into the table at its slot. A line that is
// refused later leaves events behind, which the end of compiling clears.
ghost use Rattle.std.specs.Prelude.{◌≡◌, cond, [], ◌∷◌, ◌+◌, ◌≤◌, ◌<◌, leb, length};
ghost use Rattle.model.specs.Limits.{text_limit};
ghost use Rattle.model.specs.Events.{event, events, keys_from, events_at};
ghost use Rattle.event_scanner.specs.Spans.{events_in};
ghost use Rattle.judge.specs.Spans.{written_in, SpansIn};
ghost use Rattle.lines.specs.Left.{IsRead, step_judged};
ghost use Rattle.line_writer.specs.Puts.{put_judged, put_written, put_fitting};
ghost use Rattle.line_writer.specs.Reads.{EventsFit, LeftDone};
ghost use Rattle.tables.specs.Layout.{table_length};
ghost use Rattle.tables.specs.Writing.{put_event};

use counts::element_count;
use event_scanner::events::{EventRead, EventSpans, read_event};
use event_scanner::keys::key_at;
use event_scanner::types::after_event_at;
use judge::events::judge_key;
use judge::spans::judge_event;
use lines::left::{LeftJudged, StepJudged, finish};
use model::answers::Judged;
use model::events::KeptEvent;
use model::scan::{AfterEvent, KeyRead};
use tables::write::put_event;

// What the left side of a line came to.
#[derive(Clone, Copy)]
pub enum LeftWritten {
    Broken,
    // An event is refused, and nothing after it has been looked at.
    Refuse(u8),
    // All events are in the grammar, none is refused, and the calls begin at `next`.
    Read { left: LeftJudged, next: usize },
}

// Writes event k where it is kept.
pub fn write_judged(j: Judged, out: &mut [u8], k: usize)
    requires { (table_length ≤ length out.old) × (k < 256) }
    ensures { out.new ≡ put_judged out.old k j }
{
    match j {
        Judged::Keep(e) => put_event(out, k, e),
        Judged::Crowded => (),
        Judged::Refuse(_) => (),
    }
}

// The characters of a key sequence, from a position past its opening quote.
pub fn write_keys(l: &[u8], at: usize, out: &mut [u8], first: usize)
    requires { (at ≤ length l.now) × (table_length ≤ length out.old) × EventsFit (keys_from (length l.now + 1) l.now at) first }
    ensures { out.new ≡ put_written out.old first (events_in (keys_from (length l.now + 1) l.now at)) }
{
    let mut i = at;
    let mut k = first;
    loop {
        match key_at(l, i) {
            KeyRead::Broken => return,
            KeyRead::End(_) => return,
            KeyRead::Key { mark, byte, next } => {
                let j = judge_key(mark, byte);
                write_judged(j, out, k);
                k += 1;
                i = next;
            }
        }
    }
}

// The same of so many characters, where the table has room for them.
pub fn write_sequence(l: &[u8], at: usize, out: &mut [u8], first: usize, count: usize)
    requires { ((at ≤ length l.now) × (table_length ≤ length out.old)) × (IsRead (keys_from (length l.now + 1) l.now at) × (count ≡ length (events_in (keys_from (length l.now + 1) l.now at))) × (first + count ≤ 65535)) }
    ensures { out.new ≡ put_fitting out.old first (events_in (keys_from (length l.now + 1) l.now at)) }
{
    if first + count <= 256 {
        write_keys(l, at, out, first);
    }
}

// An event that is kept, where the table has room for it.
pub fn write_kept(e: KeptEvent, out: &mut [u8], k: usize)
    requires { table_length ≤ length out.old }
    ensures { out.new ≡ cond (leb (k + 1) 256) (put_event out.old k e) out.old }
{
    if k < 256 {
        put_event(out, k, e);
    }
}

// An event as the scanner hands it over, judged, and written as event k.
pub fn write_plain(l: &[u8], spans: EventSpans, out: &mut [u8], k: usize) -> StepJudged
    requires { SpansIn (length l.now) spans × (table_length ≤ length out.old) }
    ensures { (result ≡ step_judged (events (event (written_in l.now spans) ∷ []) spans.detail.end)) × (out.new ≡ put_fitting out.old k (event (written_in l.now spans) ∷ [])) }
{
    let detail = spans.detail;
    match judge_event(l, spans) {
        Judged::Refuse(n) => StepJudged::Refuse(n),
        Judged::Crowded => StepJudged::Keep {
            events: 1,
            elements: 0,
            crowded: true,
            next: detail.end,
        },
        Judged::Keep(e) => {
            write_kept(e, out, k);
            StepJudged::Keep {
                events: 1,
                elements: element_count(e.code, e.count),
                crowded: false,
                next: detail.end,
            }
        }
    }
}

// What stands at a position, an event or a key sequence, from event k on.
pub fn write_event(l: &[u8], at: usize, out: &mut [u8], k: usize) -> StepJudged
    requires { (at ≤ length l.now) × (length l.now ≤ text_limit) × (table_length ≤ length out.old) × (k ≤ 16384) }
    ensures { (result ≡ step_judged (events_at l.now at)) × (out.new ≡ put_fitting out.old k (events_in (events_at l.now at))) }
{
    match read_event(l, at) {
        EventRead::Broken => StepJudged::Broken,
        EventRead::Plain(spans) => write_plain(l, spans, out, k),
        EventRead::Keys { start, count, next } => {
            write_sequence(l, start, out, k, count);
            StepJudged::Keep {
                events: count,
                elements: count,
                crowded: false,
                next,
            }
        }
    }
}

// The events of a line, up to its colon or to the first that is refused.
pub fn write_left(l: &[u8], out: &mut [u8], first: usize) -> LeftWritten
    requires { (length l.now ≤ text_limit) × (table_length ≤ length out.old) × (first ≤ 256) }
    ensures { LeftDone l.now first out.old out.new result }
{
    let mut at: usize = 0;
    let mut crowded = false;
    let mut kept: usize = 0;
    let mut expanded: usize = 0;
    loop {
        match write_event(l, at, out, first + kept) {
            StepJudged::Broken => return LeftWritten::Broken,
            StepJudged::Refuse(n) => return LeftWritten::Refuse(n),
            StepJudged::Keep {
                events,
                elements,
                crowded: one,
                next,
            } => {
                crowded = one | crowded;
                kept += events;
                expanded += elements;
                match after_event_at(l, next) {
                    AfterEvent::Broken => return LeftWritten::Broken,
                    AfterEvent::Comma(next) => {
                        at = next;
                    }
                    AfterEvent::Colon(next) => {
                        let left = finish(crowded, kept, expanded);
                        return LeftWritten::Read { left, next };
                    }
                }
            }
        }
    }
}
