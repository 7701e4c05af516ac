//! Numbers for human readers.
ghost use Rattle.std.specs.Prelude.{◌≡◌, codes};
ghost use Rattle.uda50_show.specs.Counts.{plural_ending};

use std::fmt;

/// A number whose digits are in groups of three, such as `65,537`.
#[derive(Clone, Copy, Debug, PartialEq, Eq)]
pub struct Grouped(pub u64);

// The values of the digit groups, the highest first.
const SCALES: [u64; 7] = [
    1_000_000_000_000_000_000,
    1_000_000_000_000_000,
    1_000_000_000_000,
    1_000_000_000,
    1_000_000,
    1_000,
    1,
];

impl fmt::Display for Grouped {
    fn fmt<W: fmt::Write>(&self, f: &mut fmt::Formatter<W>) -> fmt::Result {
        let mut begun = false;
        for scale in SCALES {
            let group = self.0 / scale % 1_000;
            if begun {
                write!(f, ",{group:03}")?;
            } else if group > 0 || scale == 1 {
                write!(f, "{group}")?;
                begun = true;
            }
        }
        Ok(())
    }
}

/// A number of things, such as `1 block` or `1,000 blocks`.
#[derive(Clone, Copy, Debug, PartialEq, Eq)]
pub struct Counted {
    /// The number.
    pub number: u64,
    /// What one of them is called.
    pub noun: &'static str,
}

impl Counted {
    /// Returns a number of blocks.
    pub fn blocks(number: u32) -> Counted
        ensures number { result.number ≡ number }
        ensures noun { result.noun.now ≡ codes "block" }
    {
        Counted {
            number: u64::from(number),
            noun: "block",
        }
    }

    /// Returns a number of bytes.
    pub fn bytes(number: u64) -> Counted
        ensures number { result.number ≡ number }
        ensures noun { result.noun.now ≡ codes "byte" }
    {
        Counted {
            number,
            noun: "byte",
        }
    }

    /// Returns the ending of the noun: `s`, unless the number is 1.
    pub fn ending(&self) -> &'static str
        ensures ending { result.now ≡ plural_ending self.now.number }
    {
        if self.number == 1 { "" } else { "s" }
    }
}

impl fmt::Display for Counted {
    fn fmt<W: fmt::Write>(&self, f: &mut fmt::Formatter<W>) -> fmt::Result {
        let number = Grouped(self.number);
        write!(f, "{number} {}{}", self.noun, self.ending())
    }
}
