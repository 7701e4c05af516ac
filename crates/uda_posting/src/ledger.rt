//! The laws of the ledger.
ghost use Rattle.uda_posting.specs.Ledger.{Opens, CarriesOut, Closes};

/// States that the ledger holds at the start, when no answer is written.
pub fn opens()
    ensures law { Opens }
{}

/// States that the ledger still holds after the execution of a request that may be executed before each
/// older one without an answer.
pub fn carries_out()
    ensures law { CarriesOut }
{}

/// States that at the end, when only requests that are too long are left, the ledger is an in-order run in
/// which transfers may fail.
pub fn closes()
    ensures law { Closes }
{}
