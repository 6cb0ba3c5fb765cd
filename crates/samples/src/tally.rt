// Checks are counted, and each is told in a line.
ghost use Rattle.std.specs.Prelude.{◌≡◌, Some};
ghost use Rattle.samples.specs.Tally.{counted, line, summary};
ghost use Rattle.std.specs.Str.{bytes_eq};

use std::fmt;

// What a check of some name found, and what it has to find.
#[derive(Clone, Copy)]
pub struct Check<'a> {
    pub name: &'a str,
    pub found: &'a str,
    pub expected: &'a str,
}

#[derive(Clone, Copy)]
pub struct Tally {
    pub checks: u32,
    pub differ: u32,
}

fn equal(found: &str, expected: &str) -> bool
    ensures { result ≡ bytes_eq found.now expected.now }
{
    found == expected
}

impl Check<'_> {
    pub fn is_met(&self) -> bool
        ensures { result ≡ bytes_eq self.now.found.now self.now.expected.now }
    {
        equal(self.found, self.expected)
    }
}

// The line for a check.
impl fmt::Display for Check<'_> {
    ghost output = { λ check. Some (line check.name.now (bytes_eq check.found.now check.expected.now) check.found.now check.expected.now) };

    fn fmt<W: fmt::Write>(&self, f: &mut fmt::Formatter<W>) -> fmt::Result {
        let Check {
            name,
            found,
            expected,
        } = self;
        if self.is_met() {
            write!(f, "{name}: ok\n")
        } else {
            write!(f, "{name}: {found} in place of {expected}\n")
        }
    }
}

impl Tally {
    pub fn new() -> Tally
        ensures { result ≡ record { checks = 0; differ = 0 } }
    {
        Tally {
            checks: 0,
            differ: 0,
        }
    }

    // Counts a check, and answers whether it found what was expected.
    pub fn count(&mut self, check: &Check) -> bool
        ensures same { result ≡ bytes_eq check.now.found.now check.now.expected.now }
        ensures counts { self.new ≡ counted self.old result }
    {
        let same = check.is_met();
        self.checks = self.checks.saturating_add(1);
        if !same {
            self.differ = self.differ.saturating_add(1);
        }
        same
    }
}

impl fmt::Display for Tally {
    ghost output = { λ tally. Some (summary tally) };

    fn fmt<W: fmt::Write>(&self, f: &mut fmt::Formatter<W>) -> fmt::Result {
        let Tally { checks, differ } = self;
        write!(f, "{checks} checks, {differ} differ\n")
    }
}
