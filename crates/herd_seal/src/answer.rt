//! A certificate that is read to its end, and what is printed of its check.
ghost use Rattle.std.specs.Prelude.{◌≡◌, ◌≤◌, ◌++◌, [], false, length, true, IfErr, IfOk, IfSome, OnOk};
ghost use Rattle.std.specs.List.{flat_map};
ghost use Rattle.herd_seal.specs.Answer.{EndsTelling, IsAnswer, IsReasoned, IsTold, IsToldWhy, IsUnreadable};
ghost use Rattle.herd_seal.specs.Answer.{accepted_line, accepted_text, checked_line, refused_text};
ghost use Rattle.herd_seal.specs.declared.answer.TheConstants.{MOST_BYTES};

use crate::certificate::{Certificate, CertifiedRow, Claim};
use crate::check::check_certificate;
use crate::check_fault::{CheckCause, CheckFault};
use herd_record_line::{push_field, push_number_field, push_record_line};
use herd_text::{ReportFault, Text};
use std::alloc::{AllocError, Allocator};
use std::io::{ErrorKind, Read, Write};

/// A certificate of more bytes is refused unread, `TooMany`. So much is room for some 600,000 ancestors.
pub const MOST_BYTES: u64 = 67_108_864;

/// Reads a certificate to its end, checks it under a seal, and writes a line that says whether it is accepted, which is
/// the result; behind it the records of its rows where it is. One that isn't has a fault, which the line names.
pub fn answer_certificate<R: Read + Drop, W: Write, A: Allocator + Clone>(
    alloc: A,
    seal: &[u8; 32],
    reader: R,
    writer: &mut W,
) -> Result<bool, ReportFault>
    ensures told { IfSome (R.remaining reader)
        (λ bytes. IfOk result (IsTold seal.now bytes (W.contents writer.old) (W.contents writer.new))) }
    ensures early { IfSome (R.remaining reader)
        (λ bytes. IfErr result (EndsTelling seal.now bytes (W.contents writer.old) (W.contents writer.new))) }
    ensures why { IfSome (R.remaining reader)
        (λ bytes. IfOk result (IsToldWhy seal.now bytes (W.contents writer.old) (W.contents writer.new))) }
{
    let mut text = Text::new(alloc.clone()?);
    let accepted = push_answer(alloc, seal, reader, &mut text)?;
    text.finish(writer)?;
    Ok(accepted)
}

// Adds what is printed of a certificate, and tells whether it is accepted.
fn push_answer<R: Read + Drop, A: Allocator + Clone>(
    alloc: A,
    seal: &[u8; 32],
    reader: R,
    text: &mut Text<A>,
) -> Result<bool, AllocError>
    requires { text.old ≡ [] }
    ensures answer { IfSome (R.remaining reader)
        (λ bytes. IfOk result (λ accepted. IsAnswer seal.now bytes accepted text.new)) }
    ensures why { IfSome (R.remaining reader)
        (λ bytes. IfOk result (λ accepted. IsReasoned seal.now bytes accepted text.new)) }
{
    match read_text(alloc.clone()?, reader) {
        Ok(bytes) => push_checked(alloc, seal, bytes.as_slice(), text),
        Err(fault) => push_refused(text, fault),
    }
}

// The bytes of a reader to its end, where they aren't too many.
fn read_text<R: Read + Drop, A: Allocator>(alloc: A, reader: R) -> Result<Vec<u8, A>, CheckFault>
    ensures whole { IfSome (R.remaining reader) (λ bytes. IfOk result (λ text. text.items ≡ bytes)) }
    ensures most { IfOk result (λ text. length text.items ≤ MOST_BYTES) }
    ensures fault { IfSome (R.remaining reader) (λ bytes. IfErr result (IsUnreadable bytes)) }
{
    let mut text = Vec::new(alloc);
    match reader.take(MOST_BYTES + 1).read_to_end(&mut text) {
        Ok(_) if text.as_slice().len() as u64 <= MOST_BYTES => Ok(text),
        Ok(_) => Err(CheckCause::TooMany.at(0)),
        Err(error) if error.kind() == ErrorKind::OutOfMemory => Err(CheckCause::Memory.at(0)),
        Err(_) => Err(CheckCause::Read.at(0)),
    }
}

// Adds what is printed of a certificate that was read.
fn push_checked<A: Allocator + Clone>(
    alloc: A,
    seal: &[u8; 32],
    bytes: &[u8],
    text: &mut Text<A>,
) -> Result<bool, AllocError>
    requires { text.old ≡ [] }
    ensures answer { IfOk result (λ accepted. IsAnswer seal.now bytes.now accepted text.new) }
    ensures why { IfOk result (λ accepted. IsReasoned seal.now bytes.now accepted text.new) }
{
    match check_certificate(alloc, seal, bytes) {
        Ok(certificate) => push_accepted(text, &certificate),
        Err(fault) => push_refused(text, fault),
    }
}

// Adds that a certificate is accepted, and the records of its rows.
fn push_accepted<A: Allocator, C: Allocator>(
    text: &mut Text<A>,
    certificate: &Certificate<'_, C>,
) -> Result<bool, AllocError>
    requires { text.old ≡ [] }
    ensures accepted { IfOk result (λ accepted. accepted ≡ true) }
    ensures text { OnOk result (text.new ≡ accepted_text certificate.now.claim certificate.now.coefficient.now
        certificate.now.rows.items) }
{
    push_accepted_line(text, &certificate.claim, certificate.coefficient)?;
    push_records(text, certificate.rows.as_slice())?;
    Ok(true)
}

#[tactic(auto, using(std::proofs::Common::append_assoc), unfolding(crate::specs::Answer::accepted_line))]
fn push_accepted_line<A: Allocator>(
    text: &mut Text<A>,
    claim: &Claim,
    coefficient: &[u8],
) -> Result<(), AllocError>
    ensures { OnOk result (text.new ≡ text.old ++ accepted_line claim.now coefficient.now) }
{
    push_field(text, b"accepted")?;
    push_field(text, &claim.number.bytes())?;
    push_field(text, coefficient)?;
    push_number_field(text, claim.steps)?;
    text.push_number(claim.animals)?;
    text.push(b"\n")
}

// Adds the records of rows.
fn push_records<A: Allocator>(text: &mut Text<A>, rows: &[CertifiedRow]) -> Result<(), AllocError>
    ensures { OnOk result (text.new ≡ text.old ++ flat_map checked_line rows.now) }
{
    for row in rows {
        push_record_line(text, row.record.number, &row.record.animal)?;
    }
    Ok(())
}

// Adds that a certificate is refused.
#[tactic(auto, using(std::proofs::Common::append_assoc), unfolding(crate::specs::Answer::refused_text))]
fn push_refused<A: Allocator>(text: &mut Text<A>, fault: CheckFault) -> Result<bool, AllocError>
    requires { text.old ≡ [] }
    ensures refused { IfOk result (λ accepted. accepted ≡ false) }
    ensures text { OnOk result (text.new ≡ refused_text fault) }
{
    push_field(text, b"refused")?;
    push_field(text, fault.cause.name().as_bytes())?;
    text.push_number(fault.line)?;
    text.push(b"\n")?;
    Ok(false)
}
