//! The loop of a run: it posts the requests of a list as commands, of which up to fifteen are outstanding
//! at once.
ghost use Rattle.std.specs.Prelude.{◌≡◌, ◌<◌, ◌≤◌, false, length};
ghost use Rattle.uda_disk.specs.Units.{AreWellFormed};
ghost use Rattle.uda_exec.specs.Disks.{PENDING_LIMIT};
ghost use Rattle.uda_disk.specs.InOrderRun.{too_long};
ghost use Rattle.uda_disk.specs.Values.{request_value, request_values};
ghost use Rattle.uda_host.specs.Host.{outstanding_count, IsConsistent};
ghost use Rattle.uda_driver.specs.Blank.{AreBlank};
ghost use Rattle.uda_driver.specs.Run.{request_limit};
ghost use Rattle.uda_driver.specs.Driver.{DriverInvariant};
ghost use Rattle.uda_driver.specs.Outstanding.{must_wait, AreFit};
ghost use Rattle.uda_driver.specs.DriverStep.{HasFreeBuffer, PostsRequest, IsReferred, ReportsEnd, DriverStep};
ghost use Rattle.uda_driver.specs.Drive.{IsDriving, RunFinished};
ghost use Rattle.uda_disk.specs.Request.{Request as Asked};
ghost use Rattle.uda_driver.specs.Span.{span_of};

use crate::answers::answer_for;
use crate::buffers::{clashes_with_any, free_buffer, none_out, put_out, take_out};
use crate::outstanding::Outstanding;
use crate::span::Span;
use crate::watch::Watch;
use uda_disk::{Answer, Request};
use uda_exec::PENDING;
use uda_host::{Host, buffer_address};
use uda_image::BlockStore;
use uda_packet::End;
use uda_port::{CREDITS, Trace};
use uda_posting::{command_of, write_payload};

/// Executes the requests, and replaces the blank answers by theirs. `watch` receives each turn. Nothing is
/// allocated once a command is posted.
pub(crate) fn drive<S: BlockStore, W: Watch>(
    host: &mut Host<S>,
    requests: &[Request],
    mut answers: Vec<Answer>,
    watch: &mut W,
) -> Vec<Answer>
    requires ready { DriverInvariant host.old }
    requires few { length requests.now ≤ request_limit }
    requires counted { length answers.items ≡ length requests.now }
    requires blank { AreBlank (request_values requests.now) 0 answers.items }
    ensures { RunFinished host.old requests.now result.items host.new }
{
    let mut out = none_out();
    for n in 0..requests.len() {
        let request = &requests[n];
        if !request.is_too_long() {
            let span = Span::of(request);
            while must_wait(host, &out, span) {
                run_turn(host, &mut out, &mut answers, watch);
            }
            let answer = std::mem::replace(&mut answers[n], Answer::TooLong);
            let one = Outstanding {
                place: n as u32,
                request,
                answer,
                span,
            };
            post(host, &mut out, one);
        }
    }
    while host.credits() < CREDITS as u32 {
        run_turn(host, &mut out, &mut answers, watch);
    }
    answers
}

// Returns whether a request must wait: no credit is left, or it conflicts with an outstanding one.
fn must_wait<S: BlockStore>(
    host: &Host<S>,
    out: &[Option<Outstanding<'_>>; PENDING],
    span: Span,
) -> bool
    ensures waits { (r : Asked) → span ≡ span_of r → result ≡ must_wait host.now out.now r }
    ensures consistent { IsConsistent host.now }
{
    host.credits() == 0 || clashes_with_any(span, out)
}

// Posts a request with a free buffer, and writes the payload of a Write into that buffer.
fn post<'a, S: BlockStore>(
    host: &mut Host<S>,
    out: &mut [Option<Outstanding<'a>>; PENDING],
    one: Outstanding<'a>,
)
    requires few { one.place < request_limit }
    requires sized { length out.old ≡ PENDING_LIMIT }
    requires short { too_long (request_value one.request.now) ≡ false }
    requires credit { 0 < host.old.credits }
    requires free { HasFreeBuffer out.old }
    ensures posts { PostsRequest one.entry host.old out.old host.new out.new }
    ensures consistent { IsConsistent host.new }
{
    let Some(number) = free_buffer(out) else {
        unreachable!()
    };
    host.fill(number as u8, write_payload(one.request));
    host.post(&command_of(one.request, one.place + 1, buffer_address(number as u8)));
    put_out(out, number, one);
}

// Runs one turn and passes it to the watcher. If it returns an end message, writes the answer of that
// request.
fn run_turn<S: BlockStore, W: Watch>(
    host: &mut Host<S>,
    out: &mut [Option<Outstanding<'_>>; PENDING],
    answers: &mut Vec<Answer>,
    watch: &mut W,
)
    requires some { 0 < outstanding_count host.old }
    requires driving { IsDriving out.old answers.old.items host.old }
    ensures effect { DriverStep host.old out.old answers.old.items host.new out.new answers.new.items }
    ensures consistent { IsConsistent host.new }
    ensures well_formed { AreWellFormed host.new.units }
{
    let mut trace = Trace::Idle;
    let end = host.step(&mut trace);
    watch.see(&trace, host.credits());
    if let Some(end) = end {
        store_answer(host, out, answers, end);
    }
}

// Writes the answer of the request of an end message, and removes the request from the outstanding ones.
fn store_answer<S: BlockStore>(
    host: &Host<S>,
    out: &mut [Option<Outstanding<'_>>; PENDING],
    answers: &mut Vec<Answer>,
    end: End,
)
    requires sized { length out.old ≡ PENDING_LIMIT }
    requires fit { AreFit (length answers.old.items) out.old }
    requires referred { IsReferred end.reference out.old }
    ensures { ReportsEnd end host.now.memory out.old answers.old.items out.new answers.new.items }
{
    let (number, one) = take_out(out, end.reference);
    let Outstanding {
        place,
        request,
        answer,
        ..
    } = one;
    answers[place as usize] = answer_for(answer, request, end, host.buffer(number as u8));
}
