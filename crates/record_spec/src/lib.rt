// The band that a record's reader hands out. The record's layout, and all that is read from it and written by it, are defined in specs/.
#![tactic(auto)]

// How many bytes every header has; in version 1 the rules start there.
pub const HEADER: usize = 7;

// How many bytes the header has in version 2.
pub const LABEL_HEADER: usize = 8;

// How many bytes a band's end has.
pub const END_WIDTH: usize = 4;

// How many bytes a premium has in version 1, and in version 2.
pub const PREMIUM_WIDTH: usize = 4;

pub const LABEL_PREMIUM_WIDTH: usize = 3;

// How many bytes a band has, lower and upper end.
pub const BAND_WIDTH: usize = 8;

// The band of a column: its lower and upper end, in parts.
#[derive(Clone, Copy)]
pub struct Band {
    pub lower: u32,
    pub upper: u32,
}
