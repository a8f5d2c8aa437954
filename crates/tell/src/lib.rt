// Loads as the programs that the gate runs write them, and where they write.
#![tactic(auto)]

ghost use Rattle.std.specs.Prelude.{IsOk};

use std::fmt;

// The standard output.
pub const STDOUT: i32 = 1;

// A writer to it, each piece by a call of its own. What a write answers is passed over, and what follows is written all the same.
#[derive(Clone, Copy)]
pub struct Stdout;

impl fmt::Write for Stdout {
    fn write_str(&mut self, s: &str) -> fmt::Result
        ensures goes_on { IsOk result }
    {
        io::write_all(STDOUT, s.as_bytes());
        Ok(())
    }
}

// A number, its last digit as a piece of its own.
#[derive(Clone, Copy)]
pub struct Number(pub u32);

impl fmt::Display for Number {
    fn fmt<W: fmt::Write>(&self, f: &mut fmt::Formatter<W>) -> fmt::Result {
        if 9 < self.0 {
            write!(f, "{}", self.0 / 10)?;
        }
        write!(f, "{}", self.0 % 10)
    }
}

// Counts, written with a blank before each.
#[derive(Clone, Copy)]
pub struct Counts<'a>(pub &'a [u16]);

impl fmt::Display for Counts<'_> {
    fn fmt<W: fmt::Write>(&self, f: &mut fmt::Formatter<W>) -> fmt::Result {
        for count in self.0 {
            write!(f, " {}", Number(u32::from(*count)))?;
        }
        Ok(())
    }
}
