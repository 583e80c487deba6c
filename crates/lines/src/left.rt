// What the events of a line come to when they are judged in order: the earliest refusal, or how much is kept.
ghost use Rattle.std.specs.Prelude.{◌≡◌};
ghost use Rattle.lines.specs.Left.{finished};

#[derive(Clone, Copy)]
pub enum LeftJudged {
    Refuse(u8),
    // No event is refused, and one names too many keysyms.
    Crowded,
    // How many events are kept, and how many they are after expansion.
    Keep { events: usize, elements: usize },
}

// The same of what stands at a position, with where reading goes on.
#[derive(Clone, Copy)]
pub enum StepJudged {
    // Neither an event nor a key sequence.
    Broken,
    Refuse(u8),
    // The events are all that were read, also where one is crowded.
    Keep {
        events: usize,
        elements: usize,
        crowded: bool,
        next: usize,
    },
}

// What is kept at the end of a line, where no event was refused.
pub fn finish(crowded: bool, events: usize, elements: usize) -> LeftJudged
    ensures { result ≡ finished crowded events elements }
{
    if crowded {
        return LeftJudged::Crowded;
    }
    LeftJudged::Keep { events, elements }
}
