//! A queue of tasks, from which all that wait are taken at once.
ghost use Rattle.std.specs.Prelude.{◌≡◌, ◌+◌, ◌-◌, ◌≤◌, ◌^◌, ◌++◌, ◌∷◌, [], false, length, min, vec_capacity, IfErr};
ghost use Rattle.std.specs.Prelude.{IfOk, OnErr, OnOk};
ghost use Rattle.herd_session.specs.Queues.{GivesBack};
ghost use Rattle.herd_session.specs.declared.queue.TheConstants.{MANY};

use core::mem;
use crossbeam_channel::{Receiver, Sender, bounded};
use std::alloc::{AllocError, Global};
use std::sync::atomic::{AtomicU64, Ordering};
use std::sync::{Arc, Mutex, Wait};
use std::time::Duration;

// Who adds tasks waits for their being taken whenever so many more wait.
const MANY: usize = 1_024;

// But no longer than so many milliseconds: the other end may itself wait for a client who writes all before it reads.
const PATIENCE: u64 = 2;

/// The end of a queue to which tasks are added.
#[derive(Drop)]
pub(crate) struct Inlet<T: Drop> {
    queue: Arc<TaskQueue<T>, Global>,
    // The other end is told of each task that finds the queue empty.
    begun: Sender<()>,
}

/// The end of a queue at which tasks are taken.
#[derive(Drop)]
pub(crate) struct Outlet<T: Drop> {
    queue: Arc<TaskQueue<T>, Global>,
    begun: Receiver<()>,
}

/// Tasks that wait, or that were taken together.
#[derive(Drop)]
pub(crate) struct Batch<T> {
    tasks: Vec<T>,
    // what they count in the backlog
    bytes: u64,
}

// What both ends share.
#[derive(Drop)]
struct TaskQueue<T> {
    waiting: Mutex<Batch<T>>,
    // how often all that waited was taken
    taken: AtomicU64,
}

/// Why a task isn't added.
#[derive(Drop)]
pub(crate) enum Unsent<T> {
    /// Nobody takes any more.
    Left,
    /// A growth of memory was refused.
    Memory(T),
}

/// An empty queue.
pub(crate) fn queue<T: Drop>(alloc: Global) -> Result<(Inlet<T>, Outlet<T>), AllocError> {
    // A queue begins anew once it was emptied, so that one word at most is on its way.
    let (tell, begun) = bounded(alloc, 2)?;
    let queue = TaskQueue {
        waiting: Mutex::new(Batch::new(alloc)),
        taken: AtomicU64::new(0),
    };
    let Ok(one) = Arc::new(alloc, queue) else {
        return Err(AllocError);
    };
    let other = Arc::try_clone(&one)?;
    Ok((
        Inlet {
            queue: one,
            begun: tell,
        },
        Outlet {
            queue: other,
            begun,
        },
    ))
}

impl<T: Drop> Batch<T> {
    /// No tasks.
    pub(crate) fn new(alloc: Global) -> Batch<T>
        ensures tasks { result.tasks.items ≡ [] }
        ensures bytes { result.bytes ≡ 0 }
    {
        Batch {
            tasks: Vec::new(alloc),
            bytes: 0,
        }
    }

    /// The tasks, the oldest first.
    pub(crate) fn tasks(&self) -> &[T]
        ensures { result.now ≡ self.now.tasks.items }
    {
        self.tasks.as_slice()
    }

    /// Lets the tasks go, and tells what they count. Room that many took is given back.
    pub(crate) fn empty(&mut self) -> u64
        ensures counted { result ≡ self.old.bytes }
        ensures bytes { self.new.bytes ≡ 0 }
        ensures tasks { self.new.tasks.items ≡ [] }
        ensures room { vec_capacity self.new.tasks ≤ MANY }
    {
        if self.tasks.capacity() > MANY {
            self.tasks = Vec::new(*self.tasks.allocator());
        } else {
            self.tasks.clear();
        }
        mem::replace(&mut self.bytes, 0)
    }

    // Adds a task, or gives it back where a growth of memory is refused.
    fn add(&mut self, task: T, bytes: u64) -> Result<usize, T>
        ensures added { OnOk result (self.new.tasks.items ≡ self.old.tasks.items ++ task ∷ []) }
        ensures count { IfOk result (λ count. count ≡ length self.new.tasks.items) }
        ensures counted { OnOk result (self.new.bytes ≡ min (self.old.bytes + bytes) (2 ^ 64 - 1)) }
        ensures given_back { IfErr result (λ back. back ≡ task) }
        ensures unchanged { OnErr result ((self.new.tasks.items ≡ self.old.tasks.items)
            × (self.new.bytes ≡ self.old.bytes)) }
    {
        match self.tasks.push(task) {
            Ok(()) => {
                self.bytes = self.bytes.saturating_add(bytes);
                Ok(self.tasks.len())
            }
            Err(refused) => Err(refused.value),
        }
    }
}

impl<T: Drop> Inlet<T> {
    /// Adds a task that counts so many bytes. Where many wait it gives the other end a little time.
    pub(crate) fn add<H: Wait>(&self, rt: &H, task: T, bytes: u64) -> Result<(), Unsent<T>>
        ensures { IfErr result (GivesBack task) }
    {
        let mut waiting = self.queue.waiting.lock(rt);
        let count = match waiting.add(task, bytes) {
            Ok(count) => count,
            Err(task) => return Err(Unsent::Memory(task)),
        };
        let taken = self.queue.taken.load(Ordering::SeqCst);
        drop(waiting);
        if count == 1 && self.begun.send(rt, ()).is_err() {
            return Err(Unsent::Left);
        }
        if count % MANY == 0 {
            let low = (taken & 0xffff_ffff) as u32;
            self.queue
                .taken
                .park_timeout(rt, low, Duration::from_millis(PATIENCE));
        }
        Ok(())
    }
}

impl<T: Drop> Outlet<T> {
    /// Waits for tasks, and takes all that wait into an empty batch. False where none can be added.
    pub(crate) fn take<H: Wait>(&self, rt: &H, batch: &mut Batch<T>) -> bool
        ensures tasks { result ≡ false → batch.new.tasks.items ≡ batch.old.tasks.items }
        ensures bytes { result ≡ false → batch.new.bytes ≡ batch.old.bytes }
    {
        if self.begun.recv(rt).is_err() {
            return false;
        }
        mem::swap(&mut *self.queue.waiting.lock(rt), batch);
        self.queue.taken.fetch_add(1, Ordering::SeqCst);
        if batch.tasks.len() >= MANY {
            self.queue.taken.wake_one();
        }
        true
    }

    /// Whether no task is known to wait.
    pub(crate) fn is_empty(&self) -> bool {
        self.begun.is_empty()
    }
}
