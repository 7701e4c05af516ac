//! Scripts of block requests: the parser of their lines.
//!
//! The tests of this crate are in `test_script`.
#![tactic(auto)]

mod cut;
mod error;
mod expected;
mod forms;
mod law;
mod number;
mod parsing;
mod part_end;
mod script;
mod statement;
mod transfer;
mod verb;

pub use error::ScriptError;
pub use expected::{Expected, Part, explain};
pub use law::statement_text_is_unique;
pub use parsing::{parse, parse_line};
pub use part_end::PartEnd;
pub use script::{Line, SCRIPT_LIMIT, Script};
pub use statement::{Amount, Statement};
