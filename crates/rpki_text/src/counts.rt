//! Numbers with the name of what is counted.
ghost use Rattle.std.specs.Prelude.{Some};
ghost use Rattle.rpki_text.specs.Counts.{count_text};

use std::fmt;

/// A number with the name of what is counted: one name for 1, and another for other numbers.
#[derive(Drop)]
pub struct Count<'a> {
    pub number: u64,
    pub one: &'a str,
    pub others: &'a str,
}

impl fmt::Display for Count<'_> {
    ghost output = { λ count. Some (count_text count.number count.one.now count.others.now) };

    fn fmt<W: fmt::Write>(&self, f: &mut fmt::Formatter<W>) -> fmt::Result {
        let number = self.number;
        write!(f, "{number}")?;
        f.write_str(if number == 1 { self.one } else { self.others })
    }
}
