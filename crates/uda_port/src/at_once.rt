//! Commands that the port executes at the moment that it fetches them.
//!
//! MSCP Basic Disk Functions Manual: Abort, Get Command Status.
ghost use Rattle.std.specs.Prelude.{◌≡◌, ◌+◌, ◌<◌, [], ◌∷◌, ◌++◌, length};
ghost use Rattle.circular_buffer.specs.Buffer.{buffer};
ghost use Rattle.uda_port.specs.AtOnce.{replies_at_once, exec_at_once, replies_for, exec_for};
ghost use Rattle.uda_port.specs.Trace.{TracesAnswer};

use crate::profile::Profile;
use crate::trace::Trace;
use crate::turn::hold;
use circular_buffer::HeapCircularBuffer;
use uda_exec::Exec;
use uda_image::BlockStore;
use uda_packet::{Reply, ReplyBody};

// Queues the end message of an invalid command, and reports it in `trace`. For a command that is ended at once,
// executes it and queues its end message. The strict profile has no such commands. All these are rare, so the
// function isn't inlined.
#[cold]
#[inline(never)]
pub(crate) fn answer_at_once<S: BlockStore>(
    profile: Profile,
    exec: &mut Exec<S>,
    waiting: &mut HeapCircularBuffer<Reply>,
    reply: Reply,
    trace: &mut Trace,
)
    requires room { length exec.old.pending + length waiting.old.items < waiting.old.capacity }
    ensures exec { exec.new ≡ exec_at_once profile reply exec.old }
    ensures replies { waiting.new
        ≡ buffer (waiting.old.items ++ replies_at_once profile reply exec.old) waiting.old.capacity }
    ensures count { length exec.new.pending + length waiting.new.items
        ≡ length exec.old.pending + length waiting.old.items + 1 }
    ensures units { exec.new.units ≡ exec.old.units }
    ensures capacity { waiting.new.capacity ≡ waiting.old.capacity }
    ensures accurate { TracesAnswer trace.new waiting.old.items waiting.new.items }
{
    match profile {
        Profile::Strict => answer(waiting, reply, trace),
        Profile::Compatible(_) => answer_guest(exec, waiting, reply, trace),
    }
}

// Does the same in the compatible profile.
fn answer_guest<S: BlockStore>(
    exec: &mut Exec<S>,
    waiting: &mut HeapCircularBuffer<Reply>,
    reply: Reply,
    trace: &mut Trace,
)
    requires room { length exec.old.pending + length waiting.old.items < waiting.old.capacity }
    ensures exec { exec.new ≡ exec_for reply.body reply exec.old }
    ensures replies { waiting.new
        ≡ buffer (waiting.old.items ++ replies_for reply.body reply exec.old) waiting.old.capacity }
    ensures count { length exec.new.pending + length waiting.new.items
        ≡ length exec.old.pending + length waiting.old.items + 1 }
    ensures units { exec.new.units ≡ exec.old.units }
    ensures capacity { waiting.new.capacity ≡ waiting.old.capacity }
    ensures accurate { TracesAnswer trace.new waiting.old.items waiting.new.items }
{
    match reply.body {
        ReplyBody::Abort { named } => match exec.abort(reply.unit, named) {
            Some(aborted) => {
                hold(waiting, aborted);
                hold(waiting, reply);
                *trace = Trace::Aborted(reply);
            }
            None => answer(waiting, reply, trace),
        },
        ReplyBody::CommandStatus { named, .. } => {
            let progress = exec.progress(reply.unit, named);
            let body = ReplyBody::CommandStatus { named, progress };
            answer(waiting, Reply { body, ..reply }, trace);
        }
        ReplyBody::Basic(_) => answer(waiting, reply, trace),
        ReplyBody::AccessPaths => answer(waiting, reply, trace),
        ReplyBody::CompareController => answer(waiting, reply, trace),
        ReplyBody::Flush => answer(waiting, reply, trace),
        ReplyBody::SetUnit { .. } => answer(waiting, reply, trace),
        ReplyBody::Compare { .. } => answer(waiting, reply, trace),
    }
}

// Queues an end message, and reports it in `trace`.
fn answer(waiting: &mut HeapCircularBuffer<Reply>, reply: Reply, trace: &mut Trace)
    requires room { length waiting.old.items < waiting.old.capacity }
    ensures last { waiting.new ≡ buffer (waiting.old.items ++ reply ∷ []) waiting.old.capacity }
    ensures longer { length waiting.new.items ≡ length waiting.old.items + 1 }
    ensures capacity { waiting.new.capacity ≡ waiting.old.capacity }
    ensures accurate { TracesAnswer trace.new waiting.old.items waiting.new.items }
{
    hold(waiting, reply);
    *trace = match reply.body {
        ReplyBody::Basic(_) => Trace::InvalidCommand(reply),
        ReplyBody::Abort { .. } => Trace::Answered(reply),
        ReplyBody::CommandStatus { .. } => Trace::Answered(reply),
        ReplyBody::AccessPaths => Trace::Answered(reply),
        ReplyBody::CompareController => Trace::Answered(reply),
        ReplyBody::Flush => Trace::Answered(reply),
        ReplyBody::SetUnit { .. } => Trace::Answered(reply),
        ReplyBody::Compare { .. } => Trace::Answered(reply),
    };
}
