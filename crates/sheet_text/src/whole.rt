// The sheet of an accepted scheme, from the tables of its figures.
ghost use Rattle.scheme.specs.Accepted.{SizeFits};
ghost use Rattle.sheet_spec.specs.Sheet.{sheet_of};
ghost use Rattle.sheet_text.specs.Tables.{AreOf};
ghost use Rattle.sheet_text.specs.Text.{Fits, Wrote};

use crate::tables::Tables;
use crate::text::Text;
use scheme::Scheme;

impl Text<'_> {
    // Puts the whole sheet.
    pub fn put_whole(&mut self, scheme: Scheme, tables: &Tables<'_>)
        requires { Fits self.old (sheet_of scheme) × SizeFits scheme × AreOf scheme tables.now }
        ensures { Wrote self.old (sheet_of scheme) self.new }
    {
        let years = usize::from(scheme.horizon) + 1;
        self.put_scheme_line(scheme.classes, scheme.columns, scheme.start, scheme.horizon);
        self.put_years(years, tables);
        self.put_total_line(tables.figure(years * (tables.classes + 1)));
    }
}
