// How much of the limits productions take.
ghost use Rattle.std.specs.Prelude.{◌≡◌, [], ◌+◌, ◌≤◌, ltb};
ghost use Rattle.lines.specs.Totals.{totals_of, with_line, TotalsIn};

// What productions hold in all.
#[derive(Clone, Copy)]
pub struct Totals {
    pub productions: usize,
    // As a table keeps them.
    pub events: usize,
    // After expansion.
    pub elements: usize,
    pub calls: usize,
    pub parameters: usize,
}

// What the production of one line holds.
#[derive(Clone, Copy)]
pub struct Line {
    pub events: usize,
    pub elements: usize,
    pub calls: usize,
    pub parameters: usize,
    // Where the calls begin in the line.
    pub right: usize,
}

// The totals of no productions.
pub fn no_totals() -> Totals
    ensures { result ≡ totals_of [] }
{
    Totals {
        productions: 0,
        events: 0,
        elements: 0,
        calls: 0,
        parameters: 0,
    }
}

// One production more.
pub fn with_line(t: Totals, line: Line) -> Totals
    requires { TotalsIn (with_line t line) }
    ensures { result ≡ with_line t line }
{
    Totals {
        productions: t.productions + 1,
        events: t.events + line.events,
        elements: t.elements + line.elements,
        calls: t.calls + line.calls,
        parameters: t.parameters + line.parameters,
    }
}

// Whether so many more pass a limit that is kept so far.
pub fn exceeds(limit: usize, before: usize, more: usize) -> bool
    requires { before ≤ limit }
    ensures { result ≡ ltb limit (before + more) }
{
    limit - before < more
}
