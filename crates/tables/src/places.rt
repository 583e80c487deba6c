// Where each word stands: the words of the header, and the first word of each section (docs/LAYOUT.md, specs/Layout).

// ---- The header

pub const DIRECTIVE: usize = 0;

pub const MERGED: usize = 1;

pub const FIRST_LENGTH: usize = 2;

pub const SECOND_LENGTH: usize = 3;

pub const PRODUCTIONS: usize = 4;

pub const EVENTS: usize = 5;

pub const CALLS: usize = 6;

pub const PARAMETERS: usize = 7;

// ---- Productions

pub const PRODUCTION_EVENTS: usize = 8;

pub const PRODUCTION_CALLS: usize = 72;

// ---- Events

pub const CODES: usize = 136;

pub const COUNTS: usize = 392;

pub const SETS: usize = 648;

pub const CLEARS: usize = 904;

pub const FLAGS: usize = 1160;

pub const LOWS: usize = 1416;

pub const HIGHS: usize = 1672;

// The keysyms after `@`, each of two words.
pub const FIRST_LOWS: usize = 1928;

pub const FIRST_HIGHS: usize = 2184;

pub const SECOND_LOWS: usize = 2440;

pub const SECOND_HIGHS: usize = 2696;

pub const THIRD_LOWS: usize = 2952;

pub const THIRD_HIGHS: usize = 3208;

pub const FOURTH_LOWS: usize = 3464;

pub const FOURTH_HIGHS: usize = 3720;

// ---- Calls

pub const MARKS: usize = 3976;

pub const NAME_STARTS: usize = 4104;

pub const NAME_LENGTHS: usize = 4232;

pub const CALL_PARAMETERS: usize = 4360;

// ---- Parameters

pub const PARAMETER_STARTS: usize = 4488;

pub const PARAMETER_LENGTHS: usize = 4744;
