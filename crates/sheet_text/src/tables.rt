// The tables of a sheet's figures, and the sheet by them.
ghost use Rattle.std.specs.Prelude.{◌≡◌, ◌<◌, length};
ghost use Rattle.scheme.specs.Accepted.{Accepted};
ghost use Rattle.sheet_spec.specs.Sheet.{sheet_of};
ghost use Rattle.sheet_text.specs.Tables.{figure_at};
ghost use Rattle.sheet_text.specs.Text.{Fits, Wrote};

use crate::text::Text;
use bounds::Bounds;
use scheme::Scheme;

// The low and the high figures of so many classes: for each year one for each class and a mean, last the total.
#[derive(Drop)]
pub struct Tables<'a> {
    pub classes: usize,
    pub low: &'a [u64],
    pub high: &'a [u64],
}

impl Tables<'_> {
    // The figure at a place of both tables.
    pub fn figure(&self, place: usize) -> Bounds
        requires { (place < length self.now.low.now) × (place < length self.now.high.now) }
        ensures { result ≡ figure_at self.now place }
    {
        Bounds {
            low: self.low[place],
            high: self.high[place],
        }
    }
}

impl Text<'_> {
    // Puts the sheet of an accepted scheme; 101 years of 33 figures and the total are the most.
    pub fn put_sheet(&mut self, scheme: Scheme)
        requires { Fits self.old (sheet_of scheme) × Accepted scheme }
        ensures { Wrote self.old (sheet_of scheme) self.new }
    {
        let size = bounds::table_size(scheme);
        let mut lows = [0u64; 3334];
        let mut highs = [0u64; 3334];
        let low = &mut lows[..size];
        let high = &mut highs[..size];
        bounds::figures(scheme, low, high).unwrap();
        let classes = usize::from(scheme.classes);
        self.put_whole(scheme, &Tables { classes, low, high });
    }
}
