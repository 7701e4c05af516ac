//! How soon an attention message that is due is delivered.
//!
//! MSCP Basic Disk Functions Manual: attention messages.
ghost use Rattle.uda_port.specs.Attention.{AttentionArrives};

/// States the law of attention messages: under load they arrive, too.
///
/// Take turns of a running port one after another, each with a response descriptor of the port's, without a write to
/// IP and without a new drive. Between them the host may change memory and read IP, and its interrupt may be taken.
/// Within 34 turns each attention message that was due is delivered or dropped, or the port is dead: there can be 15
/// fetches, 15 executions and the messages of four units.
pub fn attention_arrives()
    ensures law { AttentionArrives }
{}
