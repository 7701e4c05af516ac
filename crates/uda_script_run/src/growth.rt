//! Allocations that may fail.

ghost use Rattle.std.specs.Prelude.{◌≡◌, ◌≤◌, [], ◌∷◌, ◌++◌, OnOk, IfOk, IfErr, vec_capacity};

use std::alloc::Global;
use uda_grammar::ScriptError;

/// Returns an empty list with capacity for `count` items. Fails with [`ScriptError::NoMemory`].
pub fn with_room<T>(alloc: Global, count: usize) -> Result<Vec<T>, ScriptError>
    ensures items { IfOk result (λ list. list.items ≡ []) }
    ensures room { IfOk result (λ list. count ≤ vec_capacity list) }
    ensures error { IfErr result (λ e. e ≡ ScriptError.NoMemory) }
{
    Vec::with_capacity(alloc, count).map_err(|_| ScriptError::NoMemory)
}

/// Appends an item to a list. Fails with [`ScriptError::NoMemory`].
pub fn push<T: Drop>(list: &mut Vec<T>, item: T) -> Result<(), ScriptError>
    ensures items { OnOk result (list.new.items ≡ list.old.items ++ item ∷ []) }
    ensures error { IfErr result (λ e. e ≡ ScriptError.NoMemory) }
{
    match list.push(item) {
        Ok(()) => Ok(()),
        Err(_) => Err(ScriptError::NoMemory),
    }
}
