//! Why a request ended early.
ghost use Rattle.std.specs.Prelude.{◌≡◌};
ghost use Rattle.herdbook.specs.declared.request_fault.RequestFault.TheVariants.{Run};

use herd_clerks::ClerksFault;
use herd_command_file::LineFault;
use herd_orders::RunFault;
use herd_pedigree_file::PedigreeFault;
use herd_pedigree_report::PedigreeReportFault;
use herd_session::SessionFault;
use herd_text::ReportFault;

/// Why a request ended early.
#[derive(Clone, Copy, Debug, PartialEq, Eq, Drop)]
pub enum RequestFault {
    /// As a run may end.
    Run(RunFault),
    /// A pedigree file has a fault. Nothing was written.
    Pedigree(PedigreeFault),
    /// The office of clerks or of a session lacked a seat for a reader or room for a step, gave no reading, or wasn't
    /// closed. Clerks wrote nothing.
    NoPlace,
}

impl From<LineFault> for RequestFault {
    ghost use Rattle.herd_orders.specs.declared.run_fault.RunFault.TheVariants.{Line};

    ghost from_gives = { λ cause fault. fault ≡ Run (Line cause) };

    fn from(fault: LineFault) -> RequestFault {
        RequestFault::Run(RunFault::Line(fault))
    }
}

impl From<ReportFault> for RequestFault {
    ghost use Rattle.herd_orders.specs.RunFault.{run_fault_of};

    ghost from_gives = { λ cause fault. fault ≡ Run (run_fault_of cause) };

    fn from(fault: ReportFault) -> RequestFault {
        RequestFault::Run(RunFault::from(fault))
    }
}

impl From<PedigreeReportFault> for RequestFault {
    ghost use Rattle.herdbook.specs.Pedigrees.{fault_of_pedigree};

    ghost from_gives = { λ cause fault. fault ≡ fault_of_pedigree cause };

    fn from(fault: PedigreeReportFault) -> RequestFault {
        match fault {
            PedigreeReportFault::Record(fault) => RequestFault::Pedigree(fault),
            PedigreeReportFault::NotRegistered => RequestFault::Run(RunFault::NotRegistered),
            PedigreeReportFault::NoThread => RequestFault::Run(RunFault::NoThread),
            PedigreeReportFault::Memory => RequestFault::Run(RunFault::Memory),
            PedigreeReportFault::Write => RequestFault::Run(RunFault::Write),
        }
    }
}

impl From<ClerksFault> for RequestFault {
    ghost use Rattle.herdbook.specs.Clerks.{fault_of_clerks};

    ghost from_gives = { λ cause fault. fault ≡ fault_of_clerks cause };

    fn from(fault: ClerksFault) -> RequestFault {
        match fault {
            ClerksFault::Line(fault) => RequestFault::from(fault),
            ClerksFault::NoThread => RequestFault::Run(RunFault::NoThread),
            ClerksFault::Memory => RequestFault::Run(RunFault::Memory),
            ClerksFault::Write => RequestFault::Run(RunFault::Write),
            ClerksFault::NoPlace => RequestFault::NoPlace,
        }
    }
}

impl From<SessionFault> for RequestFault {
    ghost use Rattle.herdbook.specs.Sessions.{fault_of_session};

    ghost from_gives = { λ cause fault. fault ≡ fault_of_session cause };

    fn from(fault: SessionFault) -> RequestFault {
        match fault {
            SessionFault::Line(fault) => RequestFault::from(fault),
            SessionFault::NoThread => RequestFault::Run(RunFault::NoThread),
            SessionFault::Memory => RequestFault::Run(RunFault::Memory),
            SessionFault::Write => RequestFault::Run(RunFault::Write),
            SessionFault::NoPlace => RequestFault::NoPlace,
        }
    }
}
