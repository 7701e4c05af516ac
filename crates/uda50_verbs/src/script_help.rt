//! `uda50 help script`: the lines of a script.

use crate::fault::Fault;
use crate::outcome::Outcome;
use std::io::Write;

/// The text.
const LINES: &str = "\
A script has a request in each line. Blanks or tabs separate its words. Empty
lines, and lines that begin with #, make no request.

  Line              What it does                           Example
  online U          Brings unit U online                   online 0
  online U protect  The same, with write protection        online 0 protect
  available U       Makes unit U available                 available 0
  status U          Reports the state of unit U            status 0
  read U L N        Reads N blocks to standard output      read 0 11 1
  access U L N      Reads N blocks, and returns no bytes   access 0 0 1000
  write U L N       Writes N blocks of standard input      write 0 20 1
  fill U L N XX     Writes N blocks of bytes XX            fill 0 10 2 a5
  erase U L N       Writes N blocks of zeros               erase 0 10 2
  readb U L B       Reads B bytes to standard output       readb 0 20 12
  accessb U L B     Reads the blocks of B bytes            accessb 0 20 12
  writeb U L B      Writes B bytes of standard input       writeb 0 20 12
  eraseb U L B      Writes zeros to the blocks of B bytes  eraseb 0 20 12

  U   The number of a unit, 0 to 3
  L   The first block
  N   A number of blocks; for read, write and fill at most 32
  B   An even number of bytes; for readb and writeb at most 16384
  XX  A byte in two hexadecimal digits, such as a5

Each unit is available at first. Its transfers need an online line before them.

Example: a script fill.txt fills two blocks of unit 0, and reads one of them.

  # two blocks of a5
  online 0
  fill 0 10 2 a5
  read 0 11 1

  uda50 run --names fill.txt disk.img > block
";

/// Prints the lines of a script.
pub(crate) fn script_help<'w, W: Write>(out: &mut W) -> Result<Outcome, Fault<'w>> {
    out.write_all(LINES.as_bytes())?;
    Ok(Outcome::Done)
}
