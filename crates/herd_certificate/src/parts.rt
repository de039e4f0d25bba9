ghost use Rattle.std.specs.Prelude.{◌≡◌, ◌<◌, length, map, IfOk};
ghost use Rattle.herd_frozen.specs.declared.TheConstants.{DEPTH_LIMIT};
ghost use Rattle.herd_frozen.specs.freezing.Frozen.{parents_of};
ghost use Rattle.herd_kinship.specs.Coefficients.{coefficient_at};
ghost use Rattle.herd_certificate.specs.Parts.{ArePartsAt};
ghost use Rattle.herd_certificate.specs.Sealed.{claim_at};

use crate::ancestors::places_shown;
use herd_frozen::Frozen;
use herd_pruned::coefficients_of;
use herd_seal::{Claim, row_digests, seal_of_digests};
use herd_text::Coefficient;
use merkle_tree::digests_beside;
use std::alloc::{AllocError, Allocator};

/// What a certificate is made of, beside the rows that it shows.
#[derive(Drop)]
pub(crate) struct Parts<A: Allocator> {
    pub(crate) seal: [u8; 32],
    pub(crate) claim: Claim,
    pub(crate) coefficient: Coefficient,
    /// The places of the rows that are shown.
    pub(crate) places: Vec<u32, A>,
    /// The digests of the largest subtrees without one of these rows.
    pub(crate) beside: Vec<[u8; 32], A>,
}

impl<A: Allocator + Clone> Parts<A> {
    /// Of the certificate of the animal at a place, in a book whose journal has so many steps.
    pub(crate) fn at<F: Allocator>(
        alloc: A,
        frozen: &Frozen<F>,
        steps: u64,
        place: u32,
    ) -> Result<Parts<A>, AllocError>
        requires { place < length frozen.now }
        ensures { IfOk result (λ parts. ArePartsAt frozen.now steps place parts) }
    {
        let digests = row_digests(alloc.clone()?, frozen)?;
        let places = places_shown(alloc.clone()?, frozen, place)?;
        let leaves = widened(alloc.clone()?, places.as_slice())?;
        let beside = digests_beside(alloc.clone()?, digests.as_slice(), leaves.as_slice())?;
        Ok(Parts {
            seal: seal_of_digests(digests.as_slice(), steps),
            claim: claim_at(frozen, steps, place),
            coefficient: coefficient_at(alloc, frozen, place)?,
            places,
            beside,
        })
    }
}

// What is claimed of the animal at a place.
fn claim_at<F: Allocator>(frozen: &Frozen<F>, steps: u64, place: u32) -> Claim
    requires { place < length frozen.now }
    ensures { result ≡ claim_at frozen.now steps place }
{
    Claim {
        steps,
        animals: frozen.len(),
        place,
        number: frozen.number(place),
    }
}

// The coefficient of the animal at a place.
fn coefficient_at<F: Allocator, A: Allocator + Clone>(
    alloc: A,
    frozen: &Frozen<F>,
    place: u32,
) -> Result<Coefficient, AllocError>
    requires { place < length frozen.now }
    ensures { IfOk result (λ coefficient. coefficient.numerator
        ≡ coefficient_at DEPTH_LIMIT (map parents_of frozen.now) place) }
{
    let known = coefficients_of(alloc, frozen.lineage(), &[place])?;
    Ok(Coefficient {
        numerator: known.numerator(place),
    })
}

// Places as a tree takes them.
fn widened<A: Allocator>(alloc: A, places: &[u32]) -> Result<Vec<u64, A>, AllocError>
    ensures { IfOk result (λ wide. wide.items ≡ places.now) }
{
    let mut wide = Vec::new(alloc);
    for place in places {
        wide.push(u64::from(*place))?;
    }
    Ok(wide)
}
