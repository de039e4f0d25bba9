//! What stands in the queues.
ghost use Rattle.std.specs.Prelude.{◌≡◌, ◌-◌, ◌<◌, ◌^◌};
ghost use Rattle.herd_requests.specs.Requests.{IsAskedOf, IsTagThere, tag_text};

use crate::name::SessionName;
use herd_register::Command;
use herd_requests::{Fault, Question, Tag};
use std::marker::PhantomData;

/// What a record may ask for.
pub(crate) trait Wish: Drop {
    ghost use Rattle.std.specs.Prelude.{List, Result, ℕ};
    ghost use Rattle.csv_records.specs.Fields.{Fields};
    ghost use Rattle.herd_requests.specs.declared.fault.Fault.{Fault};

    /// The word for whom the record asks.
    ghost word: { List ℕ };

    /// It is what the fields ask for, or why they don't.
    ghost is_wanted: { Fields → Result Self Fault → Type 0 };
}

impl Wish for Command {
    ghost use Rattle.std.specs.Prelude.{codes};
    ghost use Rattle.herd_requests.specs.Requests.{IsCommandIn};

    ghost word = { codes "desk" };

    ghost is_wanted = { IsCommandIn };
}

impl Wish for Question {
    ghost use Rattle.std.specs.Prelude.{codes};
    ghost use Rattle.herd_requests.specs.Requests.{IsQuestionIn};

    ghost word = { codes "inspector" };

    ghost is_wanted = { IsQuestionIn };
}

/// What a record asks of a desk or an inspector, or why it doesn't.
#[derive(Drop)]
pub(crate) struct Task<N: SessionName, T: Wish> {
    // how many records are before it
    pub(crate) before: u64,
    // of the desk or the inspector
    pub(crate) number: usize,
    pub(crate) tag: Tag,
    pub(crate) wanted: Result<T, Fault>,
    pub(crate) of: PhantomData<N>,
    pub ghost asked: { ∥ IsAskedOf T.word T.is_wanted N.records before number tag wanted ∥₁ },
    pub ghost few: { before < 2 ^ 64 - 1 },
}

impl<N: SessionName, T: Wish> Task<N, T> {
    /// The record's tag.
    pub(crate) fn tag(&self) -> Tag
        ensures same { result ≡ self.now.tag }
        ensures there { ∥ IsTagThere N.records result ∥₁ }
    {
        self.tag.again()
    }
}

/// Why a record isn't answered, for the thread that tells it.
#[derive(Drop)]
pub(crate) struct FaultTask<N: SessionName> {
    // none where the record has none
    pub(crate) tag: Option<Tag>,
    pub(crate) fault: Fault,
    pub(crate) of: PhantomData<N>,
    pub ghost there: { ∥ IsTagThere N.records (tag_text tag) ∥₁ },
}

impl<N: SessionName> FaultTask<N> {
    /// The record's tag, or nothing where it has none.
    pub(crate) fn tag(&self) -> &[u8]
        ensures { result.now ≡ tag_text self.now.tag }
    {
        match &self.tag {
            Some(tag) => tag.text(),
            None => &[],
        }
    }
}
