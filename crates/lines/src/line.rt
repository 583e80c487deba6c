// A line that is not blank, judged by what its events came to: the grammar first, the limits last.
ghost use Rattle.std.specs.Prelude.{◌≡◌};
ghost use Rattle.model.specs.Events.{left_side};
ghost use Rattle.event_scanner.specs.LeftSide.{left_of};
ghost use Rattle.lines.specs.Totals.{with_line, TotalsIn};
ghost use Rattle.lines.specs.Line.{line_passes, all_pass, limited, right_verdict, sides_verdict};

use crate::left::LeftJudged;
use crate::totals::{Line, Totals, exceeds};
use call_scanner::right::{RightRead, right_side};
use event_scanner::left::{LeftRead, left_side};

#[derive(Clone, Copy)]
pub enum LineJudged {
    Refuse(u8),
    Add(Line),
}

// Whether a line passes a limit of one production. `most` is the largest number of parameters that one call has.
pub fn line_passes(line: Line, most: usize) -> bool
    ensures { result ≡ line_passes line most }
{
    (24 < line.elements) | (8 < line.calls) | (8 < most)
}

// Whether a limit in all is passed with that line counted.
pub fn all_pass(t: Totals, line: Line) -> bool
    requires { TotalsIn t }
    ensures { result ≡ all_pass (with_line t line) }
{
    let productions = exceeds(64, t.productions, 1);
    let elements = exceeds(256, t.elements, line.elements);
    let calls = exceeds(128, t.calls, line.calls);
    let parameters = exceeds(256, t.parameters, line.parameters);
    productions | elements | calls | parameters
}

// The limits, last of all checks.
pub fn limit(t: Totals, line: Line, most: usize) -> LineJudged
    requires { TotalsIn t }
    ensures { result ≡ limited t line most }
{
    if line_passes(line, most) {
        return LineJudged::Refuse(11);
    }
    if all_pass(t, line) {
        return LineJudged::Refuse(11);
    }
    LineJudged::Add(line)
}

// The answer to a line by what its left side and its right side, which begins at `next`, came to: 4, then the refusal of an event,
// then 11 with that line counted. `t` are the totals of the lines before it.
pub fn judge_right(t: Totals, left: LeftJudged, next: usize, right: RightRead) -> LineJudged
    requires { TotalsIn t }
    ensures { result ≡ right_verdict t next left right }
{
    match right {
        RightRead::Broken => LineJudged::Refuse(4),
        RightRead::Right {
            calls,
            parameters,
            most,
        } => match left {
            LeftJudged::Refuse(n) => LineJudged::Refuse(n),
            LeftJudged::Crowded => LineJudged::Refuse(11),
            LeftJudged::Keep { events, elements } => {
                let line = Line {
                    events,
                    elements,
                    calls,
                    parameters,
                    right: next,
                };
                limit(t, line, most)
            }
        },
    }
}

// The same of a line whose left side has not been read to its end.
pub fn judge_sides(l: &[u8], t: Totals, left: LeftJudged) -> LineJudged
    requires { TotalsIn t }
    ensures { result ≡ sides_verdict t l.now left (left_of (left_side l.now)) }
{
    match left_side(l) {
        LeftRead::Broken => LineJudged::Refuse(4),
        LeftRead::Left { next } => {
            let right = right_side(l, next);
            judge_right(t, left, next, right)
        }
    }
}
