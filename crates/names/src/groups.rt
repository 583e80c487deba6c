// The groups of the table: the modifiers, and the event types, of one length and first byte, by a constant index.
ghost use Rattle.std.specs.Prelude.{◌≡◌};
ghost use Rattle.names.specs.Groups.{modifier_group, type_group};

use crate::rows;

// The places of a group among the names of its kind, from the first up to that after the last.
#[derive(Clone, Copy)]
pub struct Group {
    pub from: usize,
    pub to: usize,
}

// The modifiers of a length and first byte.
pub fn modifier_group(len: usize, first: u8) -> Group
    ensures { result ≡ modifier_group len first }
{
    if len < rows::SHORTEST_MODIFIER {
        return Group { from: 0, to: 0 };
    }
    if rows::LONGEST_MODIFIER < len {
        return Group { from: 0, to: 0 };
    }
    let line = rows::modifier_line(first);
    Group {
        from: line[len - rows::SHORTEST_MODIFIER] as usize,
        to: line[len - rows::SHORTEST_MODIFIER + 1] as usize,
    }
}

// The event types of a length and first byte.
pub fn type_group(len: usize, first: u8) -> Group
    ensures { result ≡ type_group len first }
{
    if len < rows::SHORTEST_TYPE {
        return Group { from: 0, to: 0 };
    }
    if rows::LONGEST_TYPE < len {
        return Group { from: 0, to: 0 };
    }
    let line = rows::type_line(first);
    Group {
        from: line[len - rows::SHORTEST_TYPE] as usize,
        to: line[len - rows::SHORTEST_TYPE + 1] as usize,
    }
}
