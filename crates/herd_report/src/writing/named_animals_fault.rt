ghost use Rattle.std.specs.Prelude.{◌≡◌};
ghost use Rattle.herd_report.specs.declared.writing.named_animals_fault.NamedAnimalsFault.TheVariants.{Report};

use herd_text::ReportFault;
use std::alloc::AllocError;
use thiserror::Error;

/// Why a text on named animals, each of which must be in the book, wasn't written, or not to its end.
#[derive(Clone, Copy, Debug, PartialEq, Eq, Error)]
pub enum NamedAnimalsFault {
    /// One of the animals isn't in the book. Nothing was written.
    #[error("not registered")]
    NotRegistered,
    /// What any report may end by.
    #[error("{0}")]
    Report(ReportFault),
}

impl From<ReportFault> for NamedAnimalsFault {
    ghost from_gives = { λ fault told. told ≡ Report fault };

    fn from(fault: ReportFault) -> NamedAnimalsFault {
        NamedAnimalsFault::Report(fault)
    }
}

impl From<AllocError> for NamedAnimalsFault {
    ghost use Rattle.herd_text.specs.declared.report_fault.ReportFault.TheVariants.{Memory};

    ghost from_gives = { λ _ fault. fault ≡ Report Memory };

    fn from(_refused: AllocError) -> NamedAnimalsFault {
        NamedAnimalsFault::Report(ReportFault::Memory)
    }
}
