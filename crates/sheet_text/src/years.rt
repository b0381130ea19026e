// The lines of the years, from a table of low and one of high figures (crate bounds_spec, `Table`).
ghost use Rattle.std.specs.Prelude.{suc, ◌+◌, ◌*◌};
ghost use Rattle.sheet_text.specs.Tables.{HasFigures, classes_by, year_by, years_by};
ghost use Rattle.sheet_text.specs.Text.{Fits, Wrote};

use crate::tables::Tables;
use crate::text::Text;

impl Text<'_> {
    // Puts the class lines of a year, whose figures stand in the tables from place `base` on. How many figures the tables must have differs from line
    // to line (`HasFigures`), so that no field of theirs says it.
    fn put_class_lines(&mut self, year: usize, base: usize, tables: &Tables<'_>)
        requires { Fits self.old (classes_by tables.now year base) × HasFigures tables.now (base + tables.now.classes) }
        ensures { Wrote self.old (classes_by tables.now year base) self.new }
    {
        for j in 0..tables.classes {
            self.put_class_line(year, j, tables.figure(base + j));
        }
    }

    // Puts the lines of a year.
    fn put_year(&mut self, year: usize, tables: &Tables<'_>)
        requires { Fits self.old (year_by tables.now year) × HasFigures tables.now (year * suc tables.now.classes + suc tables.now.classes) }
        ensures { Wrote self.old (year_by tables.now year) self.new }
    {
        let base = year * (tables.classes + 1);
        self.put_class_lines(year, base, tables);
        self.put_premium_line(year, tables.figure(base + tables.classes));
    }

    // Puts the lines of the first n years.
    pub fn put_years(&mut self, n: usize, tables: &Tables<'_>)
        requires { Fits self.old (years_by tables.now n) × HasFigures tables.now (n * suc tables.now.classes) }
        ensures { Wrote self.old (years_by tables.now n) self.new }
    {
        for t in 0..n {
            self.put_year(t, tables);
        }
    }
}
