// What asking for the bands of claim frequencies answers. The exponential series, the table, the values and the bands are defined in specs/.
#![tactic(auto)]

// The largest claim frequency, in thousandths.
pub const MOST_FREQUENCY: u64 = 1_000;

// The bands of all columns: their lower and upper ends, 0 beyond the columns. Two arrays, since C lends a buffer for each.
#[derive(Clone, Copy)]
pub struct Bands {
    pub lower: [u32; 8],
    pub upper: [u32; 8],
}
