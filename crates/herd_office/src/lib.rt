//! An office: one register that clerks at desks file into, each on a thread of its own, and that inspectors read
//! without its lock.
//!
//!     let (office, mut desks, mut inspectors) = Office::<N, &R>::open(alloc, parts)?;
//!     let filed = desks[0].file(&rt, &office, command)?;
//!     inspectors[0].learn(&filed.slip);
//!     let frozen = inspectors[0].freeze(alloc)?;
//!     let closed = office.close(&rt, desks, inspectors);
//!
//! A whole program that files at two desks and reads beside them stands in `crates/office_example`.
//!
//! # What lies under the lock
//!
//! `Inside` has the register, the total of answered calls, the keeper of the history, and the writer of the readers'
//! copies. Whoever gets the lock finds that the total is the length of the journal, that the records published last are
//! those of the journal, and that nothing is pending. One event of the office is one call of `file_on` under the lock:
//! the journal's end is asked, the step that follows is claimed, both copies make room for a record more, the register
//! files the command, what the step made of the records is appended for the copies, the step is added to the history,
//! both are published, and the call is counted. What may be refused comes before the history grows: where the append of
//! the change is refused, the step is withdrawn. Only the append of the grown history and the growth of the copies come
//! after, and they have their room (no clause says so).
//!
//! # One history
//!
//! The history of an office is kept by `logbook`, as the log of a book with two words: the number of steps, and the
//! number of claims. Each step that was added spent a claim, and one claim waits at most. So whoever has the claim
//! knows the whole history and alone can add to it. A `History` is a beginning of it; it holds its length and the
//! register's limits but no step, and may be copied. Desks, slips and inspectors each hold one. Of two histories of
//! one office the longer begins with the shorter, which no thread has to be asked for.
//!
//! # Two copies
//!
//! Readers take one of two copies of the register's records, which `left_right` keeps, with the history that was told
//! with it. A copy has the records of a journal that begins with that history. Where the history has as many steps as
//! the copy has taken over it is that journal; an inspector reads no other copy.
//! The rule of the copies ties each seat to the office. An inspector reads twice: for the number of records, by
//! which it makes room while it reads nothing, and then to copy them out. It leaves, and sorts its own copy. Of some
//! animals it looks for their numbers among the records, the last first, and goes from each to its parents' places,
//! which the copy has beside it.
//!
//! # Who waits for whom
//!
//! - A desk waits for the desks that have the lock.
//! - The desk that publishes waits for those inspectors that still read the copy from before the last step: for one
//!   copying of the records, or one search among them for each number asked for, never for a sort.
//! - An inspector waits for nobody. `freeze`, `freeze_ancestors`, `learn`, `steps_seen` and `steps` take no handle by
//!   which they could.
//! - `close`, and a drop of parts, of an office or of what wasn't closed, wait for inspectors that are reading, and
//!   free both copies. For the drop the office keeps a handle of its own.
//! - `open` takes no handle. Where it fails it drops the parts, and waits by the handle that they keep: for nobody,
//!   since no inspector was handed out (by reading; no clause says so).
//!
//! # Names
//!
//! Everything of an office has a parameter `N` that names it, so a desk, an inspector or a slip can't be used with
//! another office. The parts are made first; a program then calls a function over `N` with std's `Brand`, and tells
//! there that `N` names these parts.
//!
//! # Where it stands
//!
//! | | definition (`specs/`) | code (`src/`) | proof (`proofs/`) |
//! |---|---|---|---|
//! | a name's parts | `Parts` | `name`, `parts` | |
//! | opening, closing | `Opening`, `Closing` | `office` | `Counting`, `Stored` |
//! | what lies under the lock | `Beginnings`, `Histories`, `Shelves` | `inside` | |
//! | all desks and inspectors | `Beginnings`, `Histories` | `desks`, `inspector` | `Counting`, `ListFacts` |
//! | a desk's call, its slip | `Filing`, `Histories`, `Standing` | `desk`, `filing` | `Stored` |
//! | what a desk has filed, for callers | `Filed` | | `FiledFacts` |
//! | the history: its rule, claims, beginnings of it | `Keeping` | `history`, `keeper` | `Claiming`, `Fronts` |
//! | the readers' copies, what is sent to them | `Copies`, `Shelves` | `copies`, `shown` | `Sides`, `ToldFacts` |
//! | reading a copy with no lock | `Copies`, `Keeping` | `inspector`, `linked` | `Sides`, `LinkedFacts` |
//! | why an office isn't opened or closed, or a copy not frozen; the limits | | `faults`, `limits` | |
#![tactic(auto)]

mod copies;
mod desk;
mod desks;
mod faults;
mod filing;
mod history;
mod inside;
mod inspector;
mod keeper;
mod limits;
mod linked;
mod name;
mod office;
mod parts;
mod shown;

pub use desk::{Desk, Filed, Slip};
pub use faults::{CloseFault, FreezeFault, OpenFault};
pub use filing::file_on;
pub use history::History;
pub use inside::Inside;
pub use inspector::Inspector;
pub use limits::{MOST_DESKS, MOST_INSPECTORS};
pub use name::OfficeName;
pub use office::{Office, Unclosed};
pub use parts::OfficeParts;
