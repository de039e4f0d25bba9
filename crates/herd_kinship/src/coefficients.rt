ghost use Rattle.std.specs.Prelude.{◌≡◌, ◌==◌, ℕ, ◌+◌, ◌*◌, ◌^◌, ◌<◌, All, length, slice_index, IfOk, IsOk};
ghost use Rattle.herd_lineage.specs.declared.TheConstants.{DEPTH_LIMIT};
ghost use Rattle.herd_kinship.specs.CalfLinks.{AreCalvesOf, IsCalf};
ghost use Rattle.herd_kinship.specs.Coefficients.{AreCoefficients, IsBefore, KnowsReached};
ghost use Rattle.herd_kinship.specs.Mates.{IsReady};

use crate::calves::{CalfCoefficient, Calves, has_calves, write_calves};
use crate::mates::Mates;
use herd_lineage::Lineage;
use std::alloc::{AllocError, Allocator};
use std::marker::Model;

/// The coefficients of inbreeding of a lineage's animals, by their ranks, each from 0 on and below 1.
#[derive(Drop)]
pub struct Coefficients<A: Allocator> {
    numerators: Vec<u128, A>,
}

impl<A: Allocator> Model for Coefficients<A> {
    ghost use Rattle.std.specs.Prelude.{List, ℕ, ◌*◌, ◌^◌, ◌<◌, All};
    ghost use Rattle.herd_lineage.specs.declared.TheConstants.{DEPTH_LIMIT};

    ghost Value = { List ℕ };

    ghost view = { λ coefficients. coefficients.numerators.items };

    ghost invariant = { λ coefficients. All (λ n. n < 2 ^ (2 * DEPTH_LIMIT)) coefficients.numerators.items };
}

impl<A: Allocator> Coefficients<A> {
    /// Takes over a list of numerators in units of 2^-120, each below `ONE`. That they are a lineage's coefficients is
    /// for the caller to show.
    pub fn from_list(numerators: Vec<u128, A>) -> Coefficients<A>
        requires { All (λ n. n < 2 ^ (2 * DEPTH_LIMIT)) numerators.items }
        ensures { result ≡ numerators.items }
    {
        Coefficients { numerators }
    }

    /// How many there are: one for each animal.
    pub fn len(&self) -> usize
        ensures { result ≡ length self.now }
    {
        self.numerators.len()
    }

    /// Whether there are none, as for a lineage of no animals.
    pub fn is_empty(&self) -> bool
        ensures { result ≡ (length self.now == 0) }
    {
        self.list().is_empty()
    }

    /// The coefficient of the animal at a rank, in units of 2^-120: from 0 to `ONE` - 1.
    pub fn numerator(&self, rank: u32) -> u128
        requires { rank < length self.now }
        ensures value { result ≡ slice_index self.now rank }
        ensures below_one { result < 2 ^ (2 * DEPTH_LIMIT) }
    {
        self.numerators[rank as usize]
    }

    /// All coefficients by rank, in units of 2^-120.
    pub fn list(&self) -> &[u128]
        ensures value { result.now ≡ self.now }
        ensures below_one { All (λ n. n < 2 ^ (2 * DEPTH_LIMIT)) result.now }
    {
        self.numerators.as_slice()
    }
}

// Writes the coefficients of a sire's calves, by those of its ancestors.
fn write_calves_of<F: Allocator, C: Allocator, A: Allocator>(
    lineage: &Lineage<F>,
    calves: &Calves<C>,
    mates: &mut Mates<A>,
    list: &mut Vec<CalfCoefficient, A>,
    sire: u32,
    known: &mut [u128],
) -> Result<(), AllocError>
    requires sire { sire < length lineage.now }
    requires calves { AreCalvesOf lineage.now calves.now }
    requires ready { IsReady lineage.now mates.old }
    requires known { KnowsReached DEPTH_LIMIT lineage.now (IsBefore sire) known.old }
    ensures ready { IfOk result (λ _. IsReady lineage.now mates.new) }
    ensures known { IfOk result (λ _. KnowsReached DEPTH_LIMIT lineage.now (IsBefore (sire + 1)) known.new) }
{
    list.clear();
    mates.append_calves(lineage, calves, known, sire, list)?;
    write_calves(list, known);
    Ok(())
}

// Writes the coefficients of all calves, sire by sire.
fn write_by_sires<F: Allocator, A: Allocator + Clone>(
    alloc: A,
    lineage: &Lineage<F>,
    known: &mut [u128],
) -> Result<(), AllocError>
    requires { KnowsReached DEPTH_LIMIT lineage.now (IsBefore 0) known.old }
    ensures { IfOk result (λ _. KnowsReached DEPTH_LIMIT lineage.now (IsBefore (length lineage.now)) known.new) }
{
    let calves = Calves::of(alloc.clone()?, lineage)?;
    let mut mates = Mates::with_room(alloc.clone()?, lineage)?;
    let mut list = Vec::new(alloc);
    for sire in 0..lineage.len() {
        write_calves_of(lineage, &calves, &mut mates, &mut list, sire, known)?;
    }
    Ok(())
}

// Writes the coefficients of all animals, where there is 0 yet. It takes no memory where no animal has two known
// parents.
fn write_all<F: Allocator, A: Allocator + Clone>(
    alloc: A,
    lineage: &Lineage<F>,
    known: &mut [u128],
) -> Result<(), AllocError>
    requires { KnowsReached DEPTH_LIMIT lineage.now (IsBefore 0) known.old }
    ensures known { IfOk result (λ _. KnowsReached DEPTH_LIMIT lineage.now (IsBefore (length lineage.now)) known.new) }
    ensures no_calves { ((sire calf : ℕ) → IsCalf lineage.now sire calf → ⊥) → IsOk result }
{
    if has_calves(lineage) {
        write_by_sires(alloc, lineage, known)
    } else {
        Ok(())
    }
}

/// The coefficients of inbreeding of all animals, on the calling thread.
///
/// The sires are gone through by rank, each once: half its relationship with a mate is the coefficient of
/// their calf (Colleau 2002; Sargolzaei, Iwaisaki and Colleau 2005). An animal with an unknown parent has 0. The only
/// error is a growth of memory that is refused.
pub fn coefficients_plain<F: Allocator, A: Allocator + Clone>(
    alloc: A,
    lineage: &Lineage<F>,
) -> Result<Coefficients<A>, AllocError>
    ensures { IfOk result (AreCoefficients DEPTH_LIMIT lineage.now) }
{
    let mut known = vec![in alloc.clone()?; 0u128; lineage.len() as usize]?;
    write_all(alloc, lineage, &mut known)?;
    Ok(Coefficients::from_list(known))
}
