//! What is told on standard error.

ghost use Rattle.std.specs.Prelude.{◌≡◌};
ghost use Rattle.herdbook.specs.FaultText.{number_fault_code, number_fault_name};

use crate::request_fault::RequestFault;
use herd_animal::NumberFault;
use herd_command_file::LineFault;
use herd_orders::RunFault;
use herd_pedigree_file::PedigreeFault;
use std::fmt;

/// Why a request ended early.
#[derive(Clone, Copy)]
pub struct RequestFaultText(pub RequestFault);

impl fmt::Display for RequestFaultText {
    ghost use Rattle.std.specs.Prelude.{Some};
    ghost use Rattle.herdbook.specs.FaultText.{request_fault_text};

    ghost output = { λ told. Some (request_fault_text told.0) };

    fn fmt<W: fmt::Write>(&self, f: &mut fmt::Formatter<W>) -> fmt::Result {
        match self.0 {
            RequestFault::Run(
                RunFault::Line(
                    LineFault {
                        record_number,
                        cause,
                    },
                ),
            ) => {
                let (code, name) = (cause.number(), cause.name());
                write!(f, "record {record_number}: fault {code} {name}")
            }
            RequestFault::Pedigree(
                PedigreeFault {
                    record_number,
                    cause,
                },
            ) => {
                let (code, name) = (cause.number(), cause.name());
                write!(f, "record {record_number}: fault {code} {name}")
            }
            RequestFault::Run(RunFault::NotRegistered) => f.write_str("not registered"),
            RequestFault::Run(RunFault::NoThread) => f.write_str("no thread"),
            RequestFault::Run(RunFault::Memory) => f.write_str("no memory"),
            RequestFault::Run(RunFault::Write) => f.write_str("write fault"),
            RequestFault::NoPlace => f.write_str("no reader's place"),
        }
    }
}

/// Why a word is no animal number.
#[derive(Clone, Copy)]
pub struct NumberFaultText(pub NumberFault);

impl fmt::Display for NumberFaultText {
    ghost use Rattle.std.specs.Prelude.{Some};
    ghost use Rattle.herdbook.specs.FaultText.{number_fault_text};

    ghost output = { λ told. Some (number_fault_text told.0) };

    fn fmt<W: fmt::Write>(&self, f: &mut fmt::Formatter<W>) -> fmt::Result {
        let (code, name) = code_and_name(self.0);
        write!(f, "animal number fault {code} {name}")
    }
}

fn code_and_name(fault: NumberFault) -> (u8, &'static str)
    ensures code { result.0 ≡ number_fault_code fault }
    ensures name { result.1.now ≡ number_fault_name fault }
{
    match fault {
        NumberFault::Length => (1, "Length"),
        NumberFault::Letter(_) => (2, "Letter"),
        NumberFault::SexLetter => (3, "SexLetter"),
        NumberFault::NumberCharacter(_) => (4, "NumberCharacter"),
    }
}
