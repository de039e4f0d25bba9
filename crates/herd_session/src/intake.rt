//! Reading requests and handing them on.
ghost use Rattle.std.specs.Prelude.{◌≡◌, ◌+◌, ◌-◌, ◌<◌, ◌≤◌, ◌^◌, IfSome, length, min, true};
ghost use Rattle.csv.specs.Records.{fields_of};
ghost use Rattle.csv_records.specs.Upcoming.{IsSetUp, upcoming};
ghost use Rattle.herd_command_file.specs.LineCause.{is_interruption};
ghost use Rattle.herd_requests.specs.Requests.{IsRecordAt, records_in};

use crate::backlog::request_bytes;
use crate::bounded_reader::{Allowance, BoundedReader};
use crate::name::SessionName;
use crate::queue::{Inlet, Unsent};
use crate::shared::Shared;
use crate::staff::Queues;
use crate::stop::Stop;
use crate::tasks::{FaultTask, Task, Wish};
use csv::{ByteRecord, Reader};
use csv_records::{Interruption, open_records, read_record};
use herd_command_file::{LineCause, LineFault};
use herd_report::ReportFault;
use herd_requests::{Asked, Fault, Request, request_in};
use std::alloc::Global;
use std::io::{Read, Write};
use std::marker::PhantomData;
use std::sync::Wait;

// What a record of more bytes and fields took is given back.
const LONG: usize = 65_536;

/// Reads requests up to the end of the input, and hands each to whom it is for. It ends early at a request that it
/// reads once a write has failed.
pub(crate) fn take_requests<N: SessionName, H: Wait, R: Wait + Drop, I: Read + Drop, W: Write>(
    rt: &H,
    alloc: Global,
    shared: &Shared<N, R, W>,
    queues: &Queues<N>,
    reader: I,
) -> Result<(), Stop<N>>
    requires { records_in (I.remaining reader) ≡ N.records }
{
    let allowance = Allowance::new();
    let bounded = BoundedReader {
        inner: reader,
        allowance: &allowance,
    };
    take_each(rt, alloc, shared, queues, bounded, &allowance)
}

// The same, where a record has what is allowed at most.
fn take_each<N: SessionName, H: Wait, R: Wait + Drop, I: Read + Drop, W: Write>(
    rt: &H,
    alloc: Global,
    shared: &Shared<N, R, W>,
    queues: &Queues<N>,
    reader: I,
    allowance: &Allowance,
) -> Result<(), Stop<N>>
    requires { records_in (I.remaining reader) ≡ N.records }
{
    let mut records = open_records(alloc, reader);
    let mut row = ByteRecord::new(alloc);
    take_records(rt, alloc, shared, queues, &mut records, &mut row, allowance)
}

// The same of records that were opened, in this row. It borrows what `take_each` owns, since the two together take the
// prover longer.
#[tactic(auto, using(crate::proofs::IntakeFacts::begun, crate::proofs::IntakeFacts::within_if_known))]
fn take_records<N: SessionName, H: Wait, R: Wait + Drop, I: Read, W: Write>(
    rt: &H,
    alloc: Global,
    shared: &Shared<N, R, W>,
    queues: &Queues<N>,
    records: &mut Reader<I>,
    row: &mut ByteRecord,
    allowance: &Allowance,
) -> Result<(), Stop<N>>
    requires set_up { IsSetUp records.old }
    requires to_come { upcoming I.remaining records.old ≡ N.records }
{
    for before in 0..u64::MAX {
        allowance.renew();
        match read_record(records, row) {
            Ok(true) => hand_on(rt, alloc, shared, queues, before, row)?,
            Ok(false) => break,
            Err(interruption) => return Err(broken_off(before, interruption)),
        }
        if row.as_slice().len() > LONG || row.len() > LONG {
            *row = ByteRecord::new(alloc);
        }
    }
    Ok(())
}

// The input breaks off where so many records were read.
fn broken_off<N: SessionName>(before: u64, interruption: Interruption) -> Stop<N>
    requires { IfSome N.records (λ all. before ≤ length all) }
{
    Stop::at_line(fault_after(before, interruption))
}

// The fault of the record that has so many before it.
fn fault_after(before: u64, interruption: Interruption) -> LineFault
    ensures number { result.record_number ≡ min before (2 ^ 32 - 2) + 1 }
    ensures cause { is_interruption result.cause ≡ true }
{
    let number = before.min(u64::from(u32::MAX) - 1) as u32 + 1;
    LineCause::from(interruption).at(number)
}

// Hands the request of a record to whom it is for, or to the thread that tells why it is for nobody, once there is room
// for it. None goes anywhere once a write has failed.
fn hand_on<N: SessionName, H: Wait, R: Wait + Drop, W: Write>(
    rt: &H,
    alloc: Global,
    shared: &Shared<N, R, W>,
    queues: &Queues<N>,
    before: u64,
    row: &ByteRecord,
) -> Result<(), ReportFault>
    requires there { IsRecordAt N.records before (fields_of row.now) }
    requires few { before < 2 ^ 64 - 1 }
{
    let bytes = request_bytes(row);
    if !shared.backlog.enter(rt, bytes) {
        return Err(ReportFault::Write);
    }
    let (desks, inspectors) = (queues.desks.as_slice(), queues.inspectors.as_slice());
    match request_in(alloc, desks.len(), inspectors.len(), row) {
        Request::Desk(place, asked) => {
            let Asked { tag, wanted } = asked;
            let task = Task {
                before,
                number: place + 1,
                tag,
                wanted,
                of: PhantomData,
            };
            send(rt, shared, queues, &desks[place], task, bytes)
        }
        Request::Inspector(place, asked) => {
            let Asked { tag, wanted } = asked;
            let task = Task {
                before,
                number: place + 1,
                tag,
                wanted,
                of: PhantomData,
            };
            send(rt, shared, queues, &inspectors[place], task, bytes)
        }
        Request::Nobody(tag, fault) => {
            let task = FaultTask {
                tag,
                fault,
                of: PhantomData,
            };
            send_fault(rt, shared, queues, task, bytes)
        }
    }
}

// Puts a task into a queue. One that nobody works off is that of a thread which met a failed write.
fn send<N: SessionName, H: Wait, R: Wait + Drop, W: Write, T: Wish>(
    rt: &H,
    shared: &Shared<N, R, W>,
    queues: &Queues<N>,
    queue: &Inlet<Task<N, T>>,
    task: Task<N, T>,
    bytes: u64,
) -> Result<(), ReportFault> {
    match queue.add(rt, task, bytes) {
        Ok(()) => Ok(()),
        Err(Unsent::Left) => Err(ReportFault::Write),
        Err(Unsent::Memory(task)) => {
            let refused = FaultTask {
                tag: Some(task.tag()),
                fault: Fault::Memory,
                of: PhantomData,
            };
            send_fault(rt, shared, queues, refused, bytes)
        }
    }
}

// Puts a fault into the queue of faults. Where memory is refused even there, the reading thread waits until it is
// written.
fn send_fault<N: SessionName, H: Wait, R: Wait + Drop, W: Write>(
    rt: &H,
    shared: &Shared<N, R, W>,
    queues: &Queues<N>,
    task: FaultTask<N>,
    bytes: u64,
) -> Result<(), ReportFault> {
    match queues.faults.add(rt, task, bytes) {
        Ok(()) => Ok(()),
        Err(Unsent::Left) => Err(ReportFault::Write),
        Err(Unsent::Memory(task)) => {
            shared.backlog.leave(rt, bytes);
            shared.fault(rt, task.tag(), task.fault)
        }
    }
}
