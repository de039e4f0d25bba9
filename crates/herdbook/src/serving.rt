//! What is done for a request of the words.

ghost use Rattle.std.specs.Prelude.{IfSome};
ghost use Rattle.herdbook.specs.Serving.{CanEndRequest, EndsRequest};

use crate::ending::Ending;
use herd_clerks::clerks;
use herd_command_line::Request;
use herd_orders::{answer_file, run};
use herd_pedigree_report::answer_pedigree;
use herd_seal::answer_certificate;
use herd_session::{SessionPlan, session};
use std::alloc::Global;
use std::io::{Read, Write};
use std::sync::Wait;
use std::thread::Threads;

/// Does what a request asks for, with the bytes of a command file, of a pedigree file, or of requests.
pub fn serve<H: Threads + Wait + Sync, R: Read + Drop, W: Write + Send + Drop>(
    rt: &H,
    alloc: Global,
    request: &Request<'_>,
    reader: R,
    writer: &mut W,
) -> Ending
    ensures ended { IfSome (R.remaining reader)
        (λ bytes. EndsRequest request.now bytes (W.contents writer.old) (W.contents writer.new) result) }
    ensures possible { CanEndRequest request.now result }
{
    match request {
        Request::File(book) => Ending::of_run(answer_file(alloc, book.limits, reader, writer)),
        Request::Report(book, order) => {
            Ending::of_run(run(rt, alloc, book.limits, order, reader, writer))
        }
        Request::Check(plan) => {
            Ending::of_check(answer_certificate(alloc, &plan.seal, reader, writer))
        }
        Request::Pedigree(plan, order) => {
            Ending::of_pedigree(answer_pedigree(rt, alloc, plan.animals, order, reader, writer))
        }
        Request::Clerks(book, plan) => {
            Ending::of_clerks(clerks(rt, alloc, book.limits, *plan, reader, writer))
        }
        Request::Session(plan) => {
            let office = SessionPlan {
                desks: plan.desks,
                inspectors: plan.inspectors,
                limits: plan.limits,
            };
            Ending::of_session(session(rt, alloc, office, reader, writer))
        }
    }
}
