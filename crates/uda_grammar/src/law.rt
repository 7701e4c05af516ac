//! The law of the forms, as the contract of a function that does nothing.
ghost use Rattle.uda_grammar.specs.Texts.{StatementTextIsUnique};

/// States that each statement has exactly one text, if its numbers are in range. The text has the words of
/// the form, separated by single spaces, and the numbers in the digits in which they are printed.
pub fn statement_text_is_unique()
    ensures law { StatementTextIsUnique }
{}
