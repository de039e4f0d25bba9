//! The certificate that a text is.
ghost use Rattle.std.specs.Prelude.{◌≡◌, ◌≢◌, ◌⊎◌, ◌+◌, ◌<◌, ◌≤◌, ◌^◌, ◌++◌, ℕ, List, [], codes, length, All};
ghost use Rattle.std.specs.Prelude.{IfErr, IfNone, IfOk, IfSome, OnOk, OnSome};
ghost use Rattle.std.specs.List.{flat_map};
ghost use Rattle.merkle_tree.specs.Tree.{IsDigest};
ghost use Rattle.herd_record_line.specs.RecordLine.{HasNo};
ghost use Rattle.herd_seal.specs.CertificateText.{digest_line, header_line, row_line};
ghost use Rattle.herd_seal.specs.CheckCause.{no_memory};
ghost use Rattle.herd_seal.specs.CheckFaults.{IsUnread, at_row};
ghost use Rattle.herd_seal.specs.Reading.{HasComma, HasLine, IsDigestText, IsHeaderText, IsKindText, IsNoRowText};
ghost use Rattle.herd_seal.specs.Reading.{IsRowText, IsTextOf, IsWrittenHeader, IsWrittenRow, parts_of};
ghost use Rattle.herd_seal.specs.declared.certificate.CertifiedRow.{CertifiedRow};

use crate::certificate::{Certificate, CertifiedRow, Claim};
use crate::check_fault::{CheckCause, CheckFault};
use crate::fields::{read_animal_number, read_digest, read_number, read_parent, read_place};
use herd_record_line::{cut, read_record};
use std::alloc::Allocator;

// What stands in the first line.
#[derive(Clone, Copy)]
struct Header<'a> {
    seal: [u8; 32],
    claim: Claim,
    coefficient: &'a [u8],
}

/// The certificate that a text is, which is written so and not otherwise.
pub fn read_certificate<'a, A: Allocator + Clone>(
    alloc: A,
    text: &'a [u8],
) -> Result<Certificate<'a, A>, CheckFault>
    ensures text { IfOk result (λ c. IsTextOf (parts_of c) text.now) }
    ensures digests { IfOk result (λ c. All IsDigest c.digests.items) }
    ensures fault { IfErr result (IsUnread text.now) }
{
    let Some((header, body)) = next_line(text) else {
        return Err(CheckCause::Header.at(1));
    };
    let Some(header) = read_header(header) else {
        return Err(CheckCause::Header.at(1));
    };
    let mut rows = Vec::new(alloc.clone()?);
    let rest = read_rows(&mut rows, body)?;
    let mut digests = Vec::new(alloc);
    read_digests(&mut digests, rest, rows.len())?;
    Ok(Certificate {
        seal: header.seal,
        claim: header.claim,
        coefficient: header.coefficient,
        rows,
        digests,
    })
}

// The first line, without its end, and what stands behind it.
fn next_line(text: &[u8]) -> Option<(&[u8], &[u8])>
    ensures joined { IfSome result (λ parts. parts.0.now ++ codes "\n" ++ parts.1.now ≡ text.now) }
    ensures shorter { IfSome result (λ parts. length parts.1.now < length text.now) }
    ensures plain { IfSome result (λ parts. HasNo 10 parts.0.now) }
    ensures none { IfNone result (HasNo 10 text.now) }
{
    cut(text, b'\n')
}

// The header that a line is.
fn read_header(line: &[u8]) -> Option<Header<'_>>
    requires { HasNo 10 line.now }
    ensures line { IfSome result (λ h. header_line h.seal h.claim h.coefficient.now ≡ line.now ++ codes "\n") }
    ensures written { IfSome result (λ h. IsWrittenHeader h.seal h.claim h.coefficient.now) }
    ensures text { OnSome result (IsHeaderText line.now) }
    ensures none { IfNone result (¬ (IsHeaderText line.now)) }
{
    let (kind, rest) = cut(line, b',')?;
    let (seal, rest) = cut(rest, b',')?;
    let (steps, rest) = cut(rest, b',')?;
    let (animals, rest) = cut(rest, b',')?;
    let (place, rest) = cut(rest, b',')?;
    let (number, coefficient) = cut(rest, b',')?;
    read_kind(kind)?;
    let claim = Claim {
        steps: read_number(steps)?,
        animals: read_place(animals)?,
        place: read_place(place)?,
        number: read_animal_number(number)?,
    };
    Some(Header {
        seal: read_digest(seal)?,
        claim,
        coefficient,
    })
}

// There is none where a text isn't the word that a certificate begins with.
fn read_kind(text: &[u8]) -> Option<()>
    ensures some { OnSome result (IsKindText text.now) }
    ensures none { IfNone result (¬ (IsKindText text.now)) }
{
    if text == b"herdbook-certificate-1".as_slice() {
        Some(())
    } else {
        None
    }
}

// Adds the rows that a text begins with, and gives what stands behind them. A line that has a comma is to be a row.
fn read_rows<'a, A: Allocator>(
    rows: &mut Vec<CertifiedRow, A>,
    text: &'a [u8],
) -> Result<&'a [u8], CheckFault>
    requires { rows.old.items ≡ [] }
    ensures rows { IfOk result (λ rest. flat_map row_line rows.new.items ++ rest.now ≡ text.now) }
    ensures written { OnOk result (All IsWrittenRow rows.new.items) }
    ensures end { IfOk result (λ rest. ¬ (HasLine HasComma rest.now)) }
    ensures few { IfOk result (λ rest. length rows.new.items + length rest.now ≤ length text.now) }
    ensures fault { IfErr result (λ fault. (fault ≡ no_memory) ⊎ ((read : List CertifiedRow) × (rest : List ℕ)
        × (fault ≡ at_row CheckCause.Row (length read)) × All IsWrittenRow read
        × (flat_map row_line read ++ rest ≡ text.now) × HasLine IsNoRowText rest)) }
{
    let mut rest = text;
    while let Some((line, behind)) = next_row(rest) {
        let Some(row) = read_row(line) else {
            return Err(CheckCause::Row.at_row(rows.len()));
        };
        rows.push(row)?;
        rest = behind;
    }
    Ok(rest)
}

// The first line, where it has a comma, and what stands behind it.
fn next_row(text: &[u8]) -> Option<(&[u8], &[u8])>
    ensures joined { IfSome result (λ parts. parts.0.now ++ codes "\n" ++ parts.1.now ≡ text.now) }
    ensures shorter { IfSome result (λ parts. length parts.1.now < length text.now) }
    ensures plain { IfSome result (λ parts. HasNo 10 parts.0.now) }
    ensures comma { IfSome result (λ parts. HasComma parts.0.now) }
    ensures none { IfNone result (¬ (HasLine HasComma text.now)) }
{
    let (line, behind) = next_line(text)?;
    if line.contains(&b',') {
        Some((line, behind))
    } else {
        None
    }
}

// The row that a line is.
fn read_row(line: &[u8]) -> Option<CertifiedRow>
    ensures line { IfSome result (λ row. row_line row ≡ line.now ++ codes "\n") }
    ensures written { IfSome result IsWrittenRow }
    ensures none { IfNone result (¬ (IsRowText line.now)) }
{
    let (place, rest) = cut(line, b',')?;
    let (sire, rest) = cut(rest, b',')?;
    let (dam, record) = cut(rest, b',')?;
    Some(CertifiedRow {
        place: read_place(place)?,
        sire: read_parent(sire)?,
        dam: read_parent(dam)?,
        record: read_record(record)?,
    })
}

// Adds the digests that a text is, behind so many rows.
fn read_digests<A: Allocator>(
    digests: &mut Vec<[u8; 32], A>,
    text: &[u8],
    rows: usize,
) -> Result<(), CheckFault>
    requires none { digests.old.items ≡ [] }
    requires few { rows + length text.now < 2 ^ 63 }
    ensures text { OnOk result (flat_map digest_line digests.new.items ≡ text.now) }
    ensures digests { OnOk result (All IsDigest digests.new.items) }
    ensures fault { IfErr result (λ fault. (fault ≡ no_memory) ⊎ ((read : List (List ℕ)) × (rest : List ℕ)
        × (fault ≡ at_row CheckCause.Digests (rows + length read)) × All IsDigest read
        × (flat_map digest_line read ++ rest ≡ text.now) × (rest ≢ []) × ¬ (HasLine IsDigestText rest))) }
{
    let mut rest = text;
    while !rest.is_empty() {
        let Some((line, behind)) = next_line(rest) else {
            return Err(CheckCause::Digests.at_row(rows.saturating_add(digests.len())));
        };
        let Some(digest) = read_digest(line) else {
            return Err(CheckCause::Digests.at_row(rows.saturating_add(digests.len())));
        };
        digests.push(digest)?;
        rest = behind;
    }
    Ok(())
}
