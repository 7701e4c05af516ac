//! The laws of executing a list of commands, whatever their outcomes. Each law is the contract of a function
//! with an empty body, so that a driver's proof can use it.
//!
//! The laws are about definitions only (`specs/Order.antt`). The outcome of every command is fixed as success
//! or failure, and memory and units are arbitrary: sizes and ranges need not fit. The laws don't say which
//! command is next, or that one is executed at all.
//!
//! MSCP Basic Disk Functions Manual: command ordering.
ghost use Rattle.uda_exec.specs.Order.{OrderIsIrrelevant, OneMore, PassesThrough, DependsOnDataAlone};

/// States that any eligible command may be executed first, and the others after it in order. The result is
/// that of executing all in order: each end message, every block, mode and flag, and memory are the same.
///
/// Any two of the commands must be independent. They don't conflict: two transfers of one unit conflict if
/// they share a block and one is a Write or an Erase. And no byte is in the buffers of both. A command is
/// eligible if each older one is of another unit, or both are transfers.
///
/// MSCP Basic Disk Functions Manual: command ordering.
#[tactic(auto, using(crate::proofs::OrderLaw::order_is_irrelevant))]
pub fn order_is_irrelevant()
    ensures law { OrderIsIrrelevant }
{}

/// States that executing a list of commands in order and then one more is executing the longer list. Its end
/// messages are those of the list, followed by that of the last command. The last command uses the units and
/// memory as the list left them.
#[tactic(auto, using(crate::proofs::OrderLaw::one_more))]
pub fn one_more()
    ensures law { OneMore }
{}

/// States that bytes written to memory outside all buffers of a list of commands don't affect the list. The
/// end messages, the units and memory are the same if the bytes are written before or after.
#[tactic(auto, using(crate::proofs::OrderLaw::passes_through))]
pub fn passes_through()
    ensures law { PassesThrough }
{}

/// States that the end messages and the units of a list of commands depend on no byte of memory outside the
/// buffers of its Writes. Two memories of one length that agree there give the same results.
#[tactic(auto, using(crate::proofs::OrderLaw::depends_on_data_alone))]
pub fn depends_on_data_alone()
    ensures law { DependsOnDataAlone }
{}
