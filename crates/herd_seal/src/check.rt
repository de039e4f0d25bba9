ghost use Rattle.std.specs.Prelude.{◌≡◌, ◌≢◌, ◌↔◌, ◌⊎◌, ◌+◌, ◌<◌, ◌≤◌, ◌^◌, length, slice_get, slice_index, codes};
ghost use Rattle.std.specs.Prelude.{[], ℕ, All, Contains, IsTrue, IfOk, IfErr, OnOk, IfNone, IfSome, Some};
ghost use Rattle.merkle_tree.specs.Tree.{IsBytes, IsDigest};
ghost use Rattle.herd_lineage.specs.Lineage.{IsLineage};
ghost use Rattle.herd_lineage.specs.declared.TheConstants.{DEPTH_LIMIT, MOST_ANIMALS};
ghost use Rattle.herd_kinship.specs.Coefficients.{coefficient_at};
ghost use Rattle.herd_text.specs.CoefficientText.{coefficient_text};
ghost use Rattle.herd_seal.specs.Seal.{seal_over};
ghost use Rattle.herd_seal.specs.Certificate.{AreAncestors, AreLinked, DoAscend, IsAnimalAt, IsBehind, IsLink};
ghost use Rattle.herd_seal.specs.Certificate.{IsSealed};
ghost use Rattle.herd_seal.specs.CertificateText.{certificate_text};
ghost use Rattle.herd_seal.specs.Certificate.{leaf_of, leaves_of, row_bytes};
ghost use Rattle.herd_seal.specs.CheckCause.{no_memory};
ghost use Rattle.herd_seal.specs.CheckFaults.{HasNoAnimal, HasParentFault, IsFirstStranger, IsLacking, IsMisnamed};
ghost use Rattle.herd_seal.specs.CheckFaults.{IsFault, IsOutOfOrder, IsPartsFault, at_row, at_whole};
ghost use Rattle.herd_seal.specs.Reading.{IsTextOf, parts_of};

use crate::certificate::{Certificate, CertifiedRow, Claim};
use crate::check_fault::{CheckCause, CheckFault};
use crate::reading::read_certificate;
use crate::row::{digest_of_row, seal_over};
use herd_animal::AnimalNumber;
use herd_lineage::{Lineage, LineageBuilder, LineageFault, MOST_ANIMALS};
use herd_pruned::{PrunedLineage, coefficients};
use herd_text::{Coefficient, Text, push_coefficient};
use merkle_tree::{Part, Shown, root_from};
use std::alloc::{AllocError, Allocator};

/// Checks the text of a certificate under a seal. That it is done says of all rows and steps with this seal, lawful or
/// not, that the claim, each row and the coefficient are theirs, or a collision of SHA-256 is at hand. The coefficient
/// is computed last. A text is refused by the first fault that it has, which `IsFault` says cause by cause, with its
/// line: of a text that isn't read as a certificate (`IsUnread`), and of one that is.
pub fn check_certificate<'a, A: Allocator + Clone>(
    alloc: A,
    seal: &[u8; 32],
    text: &'a [u8],
) -> Result<Certificate<'a, A>, CheckFault>
    ensures text { IfOk result (λ c. certificate_text seal.now c.claim c.coefficient.now c.rows.items c.digests.items
        ≡ text.now) }
    ensures read { IfOk result (λ c. IsTextOf (parts_of c) text.now) }
    ensures sound { IfOk result (λ c. IsSealed seal.now c.claim c.rows.items c.coefficient.now c.digests.items) }
    ensures fault { IfErr result (λ fault. IsFault seal.now text.now fault) }
{
    let certificate = read_certificate(alloc.clone()?, text)?;
    check_rows(alloc, seal, &certificate)?;
    Ok(certificate)
}

// Checks a certificate that was read.
fn check_rows<A: Allocator + Clone>(
    alloc: A,
    seal: &[u8; 32],
    certificate: &Certificate<'_, A>,
) -> Result<(), CheckFault>
    requires { All IsDigest certificate.now.digests.items }
    ensures same { OnOk result (certificate.now.seal ≡ seal.now) }
    ensures sound { OnOk result (IsSealed seal.now certificate.now.claim certificate.now.rows.items
        certificate.now.coefficient.now certificate.now.digests.items) }
    ensures fault { IfErr result
        (λ fault. IsPartsFault seal.now (parts_of certificate.now) fault.cause fault.line) }
{
    let rows = certificate.rows.as_slice();
    let claim = &certificate.claim;
    let animals = u64::from(claim.animals);
    not_too_many(rows)?;
    ascend(rows)?;
    let lineage = lineage_of(alloc.clone()?, rows)?;
    let rank = animal_of(rows, claim)?;
    only_ancestors(alloc.clone()?, &lineage, rank)?;
    let leaves = leaves_of(alloc.clone()?, rows)?;
    let Some(part) = root_from(animals, leaves.as_slice(), certificate.digests.as_slice()) else {
        return Err(CheckCause::Digests.at(1));
    };
    none_left(&part)?;
    check_seal(seal, animals, claim.steps, &part)?;
    if !is_same(&certificate.seal, seal) {
        return Err(CheckCause::Seal.at(1));
    }
    check_coefficient(alloc, &lineage, rank, certificate.coefficient)
}

// That no digest is left.
fn none_left(part: &Part) -> Result<(), CheckFault>
    ensures none { OnOk result (part.now.left.now ≡ []) }
    ensures fault { IfErr result (λ fault. (fault ≡ at_whole CheckCause.Digests) × (part.now.left.now ≢ [])) }
{
    if part.left.is_empty() {
        Ok(())
    } else {
        Err(CheckCause::Digests.at(1))
    }
}

// That each row is the animal's or an ancestor's.
fn only_ancestors<A: Allocator + Clone>(
    alloc: A,
    lineage: &Lineage<A>,
    rank: u32,
) -> Result<(), CheckFault>
    requires { rank < length lineage.now }
    ensures ancestors { OnOk result (AreAncestors lineage.now rank) }
    ensures fault { IfErr result (λ fault. (fault ≡ no_memory)
        ⊎ ((at : ℕ) × (fault ≡ at_row CheckCause.Row at) × IsFirstStranger lineage.now rank at)) }
{
    let pruned = PrunedLineage::of(alloc, lineage, &[rank])?;
    all_kept(pruned.ranks(), lineage.len())
}

// That the first rows are all kept.
fn all_kept(ranks: &[u32], rows: u32) -> Result<(), CheckFault>
    requires { (i j : ℕ) → i < j → j < length ranks.now → slice_index ranks.now i < slice_index ranks.now j }
    ensures kept { OnOk result ((row : ℕ) → row < rows → Contains ranks.now row) }
    ensures fault { IfErr result (λ fault. (at : ℕ) × (fault ≡ at_row CheckCause.Row at) × (at < rows)
        × ((row : ℕ) → row < at → Contains ranks.now row) × ¬ (Contains ranks.now at)) }
{
    for row in 0..rows {
        if !is_kept(ranks, row) {
            return Err(CheckCause::Row.at_row(row as usize));
        }
    }
    Ok(())
}

// Whether a row is kept, where all before it are.
fn is_kept(ranks: &[u32], row: u32) -> bool
    ensures { IsTrue result ↔ (slice_get ranks.now row ≡ Some row) }
{
    match ranks.get(row as usize) {
        Some(rank) => *rank == row,
        None => false,
    }
}

// That a root gives the seal.
fn check_seal(seal: &[u8; 32], animals: u64, steps: u64, part: &Part) -> Result<(), CheckFault>
    ensures fault { IfErr result (λ fault. (fault ≡ at_whole CheckCause.Seal)
        × ((animals ≡ 0) ⊎ (seal_over animals steps part.now.root ≢ seal.now))) }
    ensures some { OnOk result (0 < animals) }
    ensures seal { OnOk result (seal_over animals steps part.now.root ≡ seal.now) }
    ensures root { OnOk result (IsDigest part.now.root) }
    ensures animals { animals < 2 ^ 64 }
    ensures steps { steps < 2 ^ 64 }
{
    let made = seal_over(animals, steps, &part.root);
    if animals > 0 && is_same(&made, seal) {
        Ok(())
    } else {
        Err(CheckCause::Seal.at(1))
    }
}

fn is_same(a: &[u8; 32], b: &[u8; 32]) -> bool
    ensures { IsTrue result ↔ (a.now ≡ b.now) }
{
    a.as_slice() == b.as_slice()
}

// The rows as a lineage of their own.
fn lineage_of<A: Allocator + Clone>(
    alloc: A,
    rows: &[CertifiedRow],
) -> Result<Lineage<A>, CheckFault>
    requires few { length rows.now ≤ MOST_ANIMALS }
    requires ascend { DoAscend rows.now }
    ensures each { IfOk result (λ lineage. length lineage ≡ length rows.now) }
    ensures lineage { IfOk result (λ lineage. IsLineage DEPTH_LIMIT MOST_ANIMALS lineage) }
    ensures linked { IfOk result (λ lineage. AreLinked rows.now lineage) }
    ensures fault { IfErr result (λ fault. (fault ≡ no_memory)
        ⊎ ((cause : CheckCause) × (at : ℕ) × (fault ≡ at_row cause at) × HasParentFault rows.now cause at)) }
{
    let mut builder = Lineage::builder(alloc)?;
    for at in 0..rows.len() {
        push_row(&mut builder, rows)?;
    }
    Ok(builder.build())
}

// Adds the next row to the lineage of those before it.
fn push_row<A: Allocator>(
    builder: &mut LineageBuilder<A>,
    rows: &[CertifiedRow],
) -> Result<(), CheckFault>
    requires few { length rows.now ≤ MOST_ANIMALS }
    requires ascend { DoAscend rows.now }
    requires within { length builder.old < length rows.now }
    requires linked { AreLinked rows.now builder.old }
    ensures each { OnOk result (length builder.new ≡ length builder.old + 1) }
    ensures linked { OnOk result (AreLinked rows.now builder.new) }
    ensures fault { IfErr result (λ fault. (fault ≡ no_memory) ⊎ ((cause : CheckCause)
        × (fault ≡ at_row cause (length builder.old)) × HasParentFault rows.now cause (length builder.old))) }
{
    let at = builder.len() as usize;
    let Some(row) = rows.get(at) else {
        unreachable!();
    };
    let sire = link(rows, row.sire, row.record.animal.sire, at)?;
    let dam = link(rows, row.dam, row.record.animal.dam, at)?;
    match builder.push(sire, dam) {
        Ok(()) => Ok(()),
        Err(LineageFault::Full) => unreachable!(),
        Err(LineageFault::Sire) => Err(CheckCause::ParentLacks.at_row(at)),
        Err(LineageFault::Dam) => Err(CheckCause::ParentLacks.at_row(at)),
        Err(LineageFault::TooDeep) => Err(CheckCause::TooDeep.at_row(at)),
        Err(LineageFault::Memory) => Err(CheckCause::Memory.at(0)),
    }
}

// That the rows are no more than a lineage may have.
fn not_too_many(rows: &[CertifiedRow]) -> Result<(), CheckFault>
    ensures few { OnOk result (length rows.now ≤ MOST_ANIMALS) }
    ensures fault { IfErr result
        (λ fault. (fault ≡ record { cause = CheckCause.TooMany; line = 0 }) × (MOST_ANIMALS < length rows.now)) }
{
    if rows.len() > MOST_ANIMALS as usize {
        return Err(CheckCause::TooMany.at(0));
    }
    Ok(())
}

// That the places ascend.
fn ascend(rows: &[CertifiedRow]) -> Result<(), CheckFault>
    requires { length rows.now ≤ MOST_ANIMALS }
    ensures ascend { OnOk result (DoAscend rows.now) }
    ensures fault { IfErr result (λ fault. (at : ℕ) × (fault ≡ at_row CheckCause.Order at) × IsOutOfOrder rows.now at) }
{
    for at in 1..rows.len() {
        if !is_behind(rows, at) {
            return Err(CheckCause::Order.at_row(at));
        }
    }
    Ok(())
}

// Whether the place of a row is above that of the row before.
fn is_behind(rows: &[CertifiedRow], at: usize) -> bool
    requires later { 0 < at }
    requires within { at < length rows.now }
    ensures { IsTrue result ↔ IsBehind rows.now at }
{
    let (Some(before), Some(row)) = (rows.get(at - 1), rows.get(at)) else {
        unreachable!();
    };
    before.place < row.place
}

// The rank of a parent's row, where the parent is known.
fn link(
    rows: &[CertifiedRow],
    place: Option<u32>,
    number: Option<AnimalNumber>,
    at: usize,
) -> Result<Option<u32>, CheckFault>
    requires few { length rows.now ≤ MOST_ANIMALS }
    requires ascend { DoAscend rows.now }
    requires within { at < length rows.now }
    ensures link { IfOk result (λ rank. IsLink rows.now place number rank) }
    ensures fault { IfErr result (λ fault.
        ((fault ≡ at_row CheckCause.ParentLacks at) × IsLacking rows.now place number)
        ⊎ ((fault ≡ at_row CheckCause.ParentNumber at) × IsMisnamed rows.now place number)) }
{
    let Some(place) = place else {
        return if number.is_none() {
            Ok(None)
        } else {
            Err(CheckCause::ParentLacks.at_row(at))
        };
    };
    let Some(number) = number else {
        return Err(CheckCause::ParentLacks.at_row(at));
    };
    let Some((rank, parent)) = row_at(rows, place) else {
        return Err(CheckCause::ParentLacks.at_row(at));
    };
    if parent.record.number == number {
        Ok(Some(rank))
    } else {
        Err(CheckCause::ParentNumber.at_row(at))
    }
}

// The row at a place, and its rank. The rows are by ascending places.
fn row_at(rows: &[CertifiedRow], place: u32) -> Option<(u32, CertifiedRow)>
    requires few { length rows.now ≤ MOST_ANIMALS }
    requires ascend { DoAscend rows.now }
    ensures there { IfSome result (λ found. slice_get rows.now found.0 ≡ Some found.1) }
    ensures place { IfSome result (λ found. found.1.place ≡ place) }
    ensures none { IfNone result (All (λ row. row.place ≢ place) rows.now) }
{
    let mut low = 0;
    let mut high = rows.len();
    while low < high {
        let middle = low + (high - low) / 2;
        if rows[middle].place < place {
            low = middle + 1;
        } else {
            high = middle;
        }
    }
    let row = rows.get(low)?;
    if row.place == place {
        Some((low as u32, *row))
    } else {
        None
    }
}

// The rank of the animal's row.
fn animal_of(rows: &[CertifiedRow], claim: &Claim) -> Result<u32, CheckFault>
    requires few { length rows.now ≤ MOST_ANIMALS }
    requires ascend { DoAscend rows.now }
    ensures animal { IfOk result (λ rank. IsAnimalAt rows.now rank claim.now) }
    ensures within { IfOk result (λ rank. rank < length rows.now) }
    ensures fault { IfErr result (λ fault. (fault ≡ at_whole CheckCause.Number) × HasNoAnimal rows.now claim.now) }
{
    let Some((rank, row)) = row_at(rows, claim.place) else {
        return Err(CheckCause::Number.at(1));
    };
    if row.record.number == claim.number {
        Ok(rank)
    } else {
        Err(CheckCause::Number.at(1))
    }
}

// The rows as leaves.
fn leaves_of<A: Allocator + Clone>(
    alloc: A,
    rows: &[CertifiedRow],
) -> Result<Vec<Shown, A>, AllocError>
    ensures leaves { IfOk result (λ leaves. leaves.items ≡ leaves_of rows.now) }
    ensures bytes { OnOk result (All (λ row. IsBytes (row_bytes row)) rows.now) }
{
    let mut text = Text::new(alloc.clone()?);
    let mut leaves = Vec::new(alloc);
    for row in rows {
        let leaf = leaf_of(&mut text, row)?;
        leaves.push(leaf)?;
    }
    Ok(leaves)
}

// A row as a leaf.
fn leaf_of<A: Allocator>(text: &mut Text<A>, row: &CertifiedRow) -> Result<Shown, AllocError>
    ensures leaf { IfOk result (λ leaf. leaf ≡ leaf_of row.now) }
    ensures bytes { OnOk result (IsBytes (row_bytes row.now)) }
{
    let record = &row.record;
    let digest = digest_of_row(text, row.sire, row.dam, record.number, &record.animal)?;
    Ok(Shown {
        place: u64::from(row.place),
        digest,
    })
}

// That a text is that of the coefficient of the animal at a rank.
fn check_coefficient<A: Allocator + Clone>(
    alloc: A,
    lineage: &Lineage<A>,
    rank: u32,
    told: &[u8],
) -> Result<(), CheckFault>
    requires { rank < length lineage.now }
    ensures told { OnOk result
        (told.now ≡ coefficient_text (codes ",") (coefficient_at DEPTH_LIMIT lineage.now rank)) }
    ensures fault { IfErr result (λ fault. (fault ≡ no_memory) ⊎ ((fault ≡ at_whole CheckCause.Coefficient)
        × (told.now ≢ coefficient_text (codes ",") (coefficient_at DEPTH_LIMIT lineage.now rank)))) }
{
    let coefficients = coefficients(alloc.clone()?, lineage)?;
    let numerator = coefficients.numerator(rank);
    let mut text = Text::new(alloc);
    push_coefficient(&mut text, Coefficient { numerator }, b",")?;
    if text.bytes() == told {
        Ok(())
    } else {
        Err(CheckCause::Coefficient.at(1))
    }
}
