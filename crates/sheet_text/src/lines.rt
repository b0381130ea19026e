// The lines of a sheet, put after a text. A year or a class number is widened by `as`: there is no `From` between `usize` and `u64`.
ghost use Rattle.std.specs.Prelude.{◌+◌, ◌<◌, ◌++◌};
ghost use Rattle.sheet_spec.specs.Text.{field, newline};
ghost use Rattle.sheet_spec.specs.Sheet.{scheme_line, class_line, premium_line, total_line, refused_line};
ghost use Rattle.sheet_text.specs.Text.{Fits, Wrote};

use crate::text::Text;
use bounds::Bounds;

impl Text<'_> {
    // Puts the bounds of the figure that ends a line.
    fn put_ends(&mut self, figure: Bounds)
        requires { Fits self.old (field figure.low ++ field figure.high ++ newline) }
        ensures { Wrote self.old (field figure.low ++ field figure.high ++ newline) self.new }
    {
        self.put_field(figure.low);
        self.put_field(figure.high);
        self.put_newline();
    }

    // Puts the SCHEME line.
    pub fn put_scheme_line(&mut self, classes: u8, columns: u8, start: u8, horizon: u8)
        requires { Fits self.old (scheme_line classes columns start horizon) }
        ensures { Wrote self.old (scheme_line classes columns start horizon) self.new }
    {
        self.put_word(b"SCHEME");
        self.put_field(u64::from(classes));
        self.put_field(u64::from(columns));
        self.put_field(u64::from(start));
        self.put_field(u64::from(horizon));
        self.put_newline();
    }

    // Puts the line of a class in a year: class j + 1.
    pub fn put_class_line(&mut self, year: usize, j: usize, figure: Bounds)
        requires { Fits self.old (class_line year j figure.low figure.high) × (j < 256) }
        ensures { Wrote self.old (class_line year j figure.low figure.high) self.new }
    {
        self.put_word(b"YEAR");
        self.put_field(year as u64);
        self.put_word(b" CLASS");
        self.put_field((j + 1) as u64);
        self.put_ends(figure);
    }

    // Puts the PREMIUM line of a year.
    pub fn put_premium_line(&mut self, year: usize, figure: Bounds)
        requires { Fits self.old (premium_line year figure.low figure.high) }
        ensures { Wrote self.old (premium_line year figure.low figure.high) self.new }
    {
        self.put_word(b"YEAR");
        self.put_field(year as u64);
        self.put_word(b" PREMIUM");
        self.put_ends(figure);
    }

    // Puts the TOTAL line.
    pub fn put_total_line(&mut self, figure: Bounds)
        requires { Fits self.old (total_line figure.low figure.high) }
        ensures { Wrote self.old (total_line figure.low figure.high) self.new }
    {
        self.put_word(b"TOTAL");
        self.put_ends(figure);
    }

    // Puts the line of a refusal.
    pub fn put_refused_line(&mut self, number: u8)
        requires { Fits self.old (refused_line number) }
        ensures { Wrote self.old (refused_line number) self.new }
    {
        self.put_word(b"REFUSED");
        self.put_field(u64::from(number));
        self.put_newline();
    }
}
