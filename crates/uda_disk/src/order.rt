//! The law of executing requests in another order, as the contract of a function that does nothing.
//!
//! MSCP Basic Disk Functions Manual: command ordering.
ghost use Rattle.uda_disk.specs.Order.{RequestOrderIsIrrelevant};

/// States that the order of execution changes nothing. Any request that may overtake all older ones may be
/// executed first, and the others after it in order. Each answer, every block and every mode are then those
/// of the in-order run.
///
/// The law requires that no two of the requests conflict. Two transfers of one unit conflict if they share
/// a block and one of them is a Write or an Erase.
///
/// MSCP Basic Disk Functions Manual: command ordering.
#[tactic(auto, using(crate::proofs::OrderLaw::request_order_is_irrelevant))]
pub fn request_order_is_irrelevant()
    ensures law { RequestOrderIsIrrelevant }
{}
