//! The text of a script as its author may write it: with tabs, several blanks between words, blanks at both
//! ends of a line, and lines that end in a carriage return and a line feed. A reader passes it on in the form
//! that the parser of `uda_grammar` reads, and keeps the columns of the file for the mistake of a line.
#![tactic(auto)]

mod blanks;
mod line;
mod mistake;
mod notes;
mod reader;

pub use blanks::Blanks;
pub use line::ScriptLine;
pub use mistake::{ByteOrderMark, Foreign, Intruder, Mistake};
pub use notes::ScriptNotes;
pub use reader::{LineReader, ScriptReader};
