//! An office at work. Requests are read from one reader, handed to the desks and inspectors that they name, who have a
//! thread and a queue each, and answered on one writer.
//!
//!     session(&rt, alloc, SessionPlan { desks, inspectors, limits }, reader, &mut writer)?;
//!
//! # What follows a request
//!
//! No clause follows a value through a queue or a lock, so what is to be known stands on types. A task in a queue
//! (`Task`) knows that a record of the input asks for it; a `Clerk` takes only tasks for its desk,
//! in the order of the records, and knows that it filed just their commands; an `Answer` knows the history and the book
//! that it is made of. The `Output` under its lock knows that the writer has answers alone, each of a beginning of the
//! longest history written of, but for those that wait. `SessionName` names what was there before: the records to be
//! read, and what the writer held.
//!
//! # Who waits for whom
//!
//! - The reading thread waits for its input, and where requests of `MOST_WAITING` bytes wait until some are answered.
//!   Where many tasks wait in a queue it gives the thread that works them off a little time. Where nobody is asked, a
//!   thread with a queue of its own tells why.
//! - A clerk waits for its queue, from which it takes all that wait, in the office for other clerks, and for the
//!   writer. Where another task waits already, its reply is written with the next one's.
//! - An inspector waits for its queue, for the lock of the longest history answered, under which histories are only
//!   compared, and for the writer's lock.
//!
//! # Where it stands
//!
//! | | definition (`specs/`) | code (`src/`) | proof (`proofs/`) |
//! |---|---|---|---|
//! | requests, questions, why one isn't answered | those of `herd_requests` | | |
//! | the texts that answer questions | `Texts` | `reading`, `report_text` | |
//! | which animals they are made of | `Scopes` | `scope`, `reading` | `ScopeFacts` |
//! | faults | | `fault_work`, `session_fault`, `stop` | |
//! | reading requests | | `intake`, `bounded_reader` | `IntakeFacts` |
//! | queues of requests | `Queues` | `backlog`, `queue`, `tasks`, `staff` | |
//! | clerks | `Filed` | `desk_work` | `FiledFacts` |
//! | inspectors | `Answers` | `inspector_work`, `reporting_inspector` | `AskedFacts` |
//! | answers, the writer | `Answers`, `Output` | `answers`, `pieces`, `output` | `AnswerFacts`, `PieceFacts` |
//! | a whole session, and its end | `Closing` | `running`, `closing`, `shared`, `plan`, `name` | `ClosingFacts` |
#![tactic(auto)]

mod answers;
mod backlog;
mod bounded_reader;
mod closing;
mod desk_work;
mod fault_work;
mod inspector_work;
mod intake;
mod name;
mod output;
mod pieces;
mod plan;
mod queue;
mod reading;
mod report_text;
mod reporting_inspector;
mod running;
mod scope;
mod session_fault;
mod shared;
mod staff;
mod stop;
mod tasks;

pub use backlog::MOST_WAITING;
pub use bounded_reader::LONGEST_RECORD;
pub use plan::SessionPlan;
pub use report_text::LONGEST_REPORT;
pub use running::session;
pub use session_fault::SessionFault;
