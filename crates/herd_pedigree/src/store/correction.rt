//! The parents by place, with those of one animal exchanged, and the depths that follow.
ghost use Rattle.std.specs.Prelude.{◌≡◌, ◌⊎◌, ℕ, suc, ◌+◌, ◌<◌, ◌≤◌, ◌==◌, ◌++◌, ◌∷◌, [], List, All, IsTrue, IsFalse};
ghost use Rattle.std.specs.Prelude.{◌↔◌, IfNone, IfOk, IfSome, OnOk, OnErr, Some, filter, length, min, not};
ghost use Rattle.std.specs.Prelude.{slice_index};
ghost use Rattle.herd_frozen.specs.rules.Depths.{IsParent, depth_from};
ghost use Rattle.herd_frozen.specs.rules.Paths.{has_path};
ghost use Rattle.herd_pedigree.specs.store.Carrying.{AddsCalves, HavePaths, IsSettled};
ghost use Rattle.herd_pedigree.specs.store.Exchange.{IsSound};
ghost use Rattle.herd_pedigree.specs.store.Undo.{TakesBack};
ghost use Rattle.herd_frozen.specs.declared.TheConstants.{DEPTH_LIMIT};

use crate::store::depth::depth_with;
use crate::store::progeny::{Calves, Progeny};
use crate::store::undo::undo_writes;
use herd_frozen::{DEPTH_LIMIT, Link};
use std::alloc::{AllocError, Allocator};

/// The parents of all animals by place, as they would be if one had these.
#[derive(Drop)]
pub struct Correction<'a, A: Allocator> {
    pub sires: &'a Progeny<A>,
    pub dams: &'a Progeny<A>,
    pub place: u32,
    pub sire: Option<u32>,
    pub dam: Option<u32>,
    pub ghost sound: { IsSound sires.now.parents dams.now.parents place sire dam },
}

impl<A: Allocator> Correction<'_, A> {
    ghost use Rattle.herd_pedigree.specs.store.Correction.{AreDepthsBefore, corrected, uncorrected};

    // The parents of an animal.
    fn parents_of(&self, place: u32) -> Link
        requires { place < length self.now.sires.now.parents }
        ensures sire { result.sire ≡ (corrected self.now).sire place }
        ensures dam { result.dam ≡ (corrected self.now).dam place }
    {
        if place == self.place {
            Link {
                sire: self.sire,
                dam: self.dam,
            }
        } else {
            Link {
                sire: self.sires.parent(place),
                dam: self.dams.parent(place),
            }
        }
    }

    // Whether an animal is one of the new parents.
    fn is_new_parent(&self, place: u32) -> bool
        ensures { IsTrue result ↔ IsParent (corrected self.now) place self.now.place }
    {
        self.sire == Some(place) || self.dam == Some(place)
    }

    /// Whether the animal whose parents are exchanged is nobody's parent, with the old parents and with the new.
    pub fn has_no_calves(&self) -> bool
        ensures none { IsTrue result → (x : ℕ) → IsParent (corrected self.now) self.now.place x → ⊥ }
        ensures some { IsFalse result → (x : ℕ) × (IsParent (corrected self.now) self.now.place x
            ⊎ IsParent (uncorrected self.now) self.now.place x) }
    {
        !self.sires.has_calves(self.place)
            && !self.dams.has_calves(self.place)
            && !self.is_new_parent(self.place)
    }

    // The depth that its parents give an animal, cut off above the limit.
    fn depth_at(&self, depths: &[u8], place: u32) -> u8
        requires within { place < length self.now.sires.now.parents }
        requires long { length depths.now ≡ length self.now.sires.now.parents }
        ensures { result ≡ min (DEPTH_LIMIT + 1)
            (depth_from (slice_index depths.now) ((corrected self.now).sire place) ((corrected self.now).dam place)) }
    {
        let parents = self.parents_of(place);
        let depth = depth_with(depths, parents.sire, parents.dam);
        depth.min(u16::from(DEPTH_LIMIT) + 1) as u8
    }

    // Puts the calves of an animal behind the others.
    fn push_calves<B: Allocator>(
        &self,
        place: u32,
        pending: &mut Vec<u32, B>,
    ) -> Result<(), AllocError>
        requires { place < length self.now.sires.now.parents }
        ensures { OnOk result (AddsCalves (corrected self.now) place pending.old.items pending.new.items) }
    {
        push_others(self.sires.calves(place), self.place, pending)?;
        push_others(self.dams.calves(place), self.place, pending)?;
        if self.is_new_parent(place) {
            pending.push(self.place)?;
        }
        Ok(())
    }

    // Gives each of the places the depth that its parents give. Where it changes, the old one is logged, and the
    // calves are pending.
    fn settle<B: Allocator>(
        &self,
        places: &[u32],
        depths: &mut [u8],
        log: &mut Vec<(u32, u8), B>,
        pending: &mut Vec<u32, B>,
    ) -> Result<(), AllocError>
        requires within { All (λ place. place < length depths.old) places.now }
        requires long { length depths.old ≡ length self.now.sires.now.parents }
        ensures logged { (past : List ℕ) → TakesBack log.old.items depths.old past
            → TakesBack log.new.items depths.new past }
        ensures settled { OnOk result (IsSettled DEPTH_LIMIT (corrected self.now) (slice_index depths.old)
            (places.now ++ pending.old.items)
            → IsSettled DEPTH_LIMIT (corrected self.now) (slice_index depths.new) pending.new.items) }
        ensures paths { OnOk result ((n : ℕ) → HavePaths (corrected self.now) n places.now
            → HavePaths (corrected self.now) (suc n) pending.old.items
            → HavePaths (corrected self.now) (suc n) pending.new.items) }
    {
        for &place in places {
            let depth = self.depth_at(depths, place);
            let old = depths[place as usize];
            if depth == old {
                continue;
            }
            log.push((place, old))?;
            depths[place as usize] = depth;
            self.push_calves(place, pending)?;
        }
        Ok(())
    }

    // Carries depths on to the animal and its descendants, and logs what is written over. Whether that came to an end:
    // else some path is too long.
    fn carry<B: Allocator + Copy>(
        &self,
        alloc: B,
        depths: &mut [u8],
        log: &mut Vec<(u32, u8), B>,
    ) -> Result<bool, AllocError>
        requires long { length depths.old ≡ length self.now.sires.now.parents }
        requires settled { IsSettled DEPTH_LIMIT (corrected self.now) (slice_index depths.old) (self.now.place ∷ []) }
        ensures logged { (past : List ℕ) → TakesBack log.old.items depths.old past
            → TakesBack log.new.items depths.new past }
        ensures settled { IfOk result
            (λ done. IsTrue done → IsSettled DEPTH_LIMIT (corrected self.now) (slice_index depths.new) []) }
        ensures deep { IfOk result
            (λ done. IsFalse done → (x : ℕ) × IsTrue (has_path (corrected self.now) (DEPTH_LIMIT + 1) x)) }
    {
        let mut pending = Vec::new(alloc);
        pending.push(self.place)?;
        for _ in 0..DEPTH_LIMIT + 1 {
            if pending.as_slice().is_empty() {
                return Ok(true);
            }
            let mut calves = Vec::new(alloc);
            self.settle(&pending, depths, log, &mut calves)?;
            pending = calves;
        }
        Ok(pending.as_slice().is_empty())
    }

    // Carries depths on, from an empty log, and returns whether no path is too long.
    fn stays_shallow<B: Allocator + Copy>(
        &self,
        alloc: B,
        depths: &mut [u8],
        log: &mut Vec<(u32, u8), B>,
    ) -> Result<bool, AllocError>
        requires before { AreDepthsBefore DEPTH_LIMIT self.now depths.old }
        requires empty { log.old.items ≡ [] }
        ensures logged { TakesBack log.new.items depths.new depths.old }
        ensures settled { IfOk result
            (λ shallow. IsTrue shallow → IsSettled DEPTH_LIMIT (corrected self.now) (slice_index depths.new) []) }
        ensures shallow { IfOk result (λ shallow. IsTrue shallow
            → (x : ℕ) → IsFalse (has_path (corrected self.now) (DEPTH_LIMIT + 1) x)) }
        ensures deep { IfOk result
            (λ shallow. IsFalse shallow → (x : ℕ) × IsTrue (has_path (corrected self.now) (DEPTH_LIMIT + 1) x)) }
    {
        if !self.carry(alloc, depths, log)? {
            return Ok(false);
        }
        Ok(!has_greater(depths, log, DEPTH_LIMIT))
    }

    /// Carries depths on and returns the log. Where some path would be too long, or memory is refused, all depths are
    /// left as they were.
    pub fn carry_if_shallow<B: Allocator + Copy>(
        &self,
        alloc: B,
        depths: &mut [u8],
    ) -> Result<Option<Vec<(u32, u8), B>>, AllocError>
        requires { AreDepthsBefore DEPTH_LIMIT self.now depths.old }
        ensures logged { IfOk result
            (λ carried. IfSome carried (λ log. TakesBack log.items depths.new depths.old)) }
        ensures settled { IfOk result
            (λ carried. IfSome carried (λ _. IsSettled DEPTH_LIMIT (corrected self.now) (slice_index depths.new) [])) }
        ensures shallow { IfOk result
            (λ carried. IfSome carried (λ _. (x : ℕ) → IsFalse (has_path (corrected self.now) (DEPTH_LIMIT + 1) x))) }
        ensures deep { IfOk result
            (λ carried. IfNone carried ((x : ℕ) × IsTrue (has_path (corrected self.now) (DEPTH_LIMIT + 1) x))) }
        ensures same { IfOk result (λ carried. IfNone carried (depths.new ≡ depths.old)) }
        ensures err { OnErr result (depths.new ≡ depths.old) }
    {
        let mut log = Vec::new(alloc);
        match self.stays_shallow(alloc, depths, &mut log) {
            Ok(true) => Ok(Some(log)),
            Ok(false) => {
                undo_writes(depths, &mut log);
                Ok(None)
            }
            Err(refused) => {
                undo_writes(depths, &mut log);
                Err(refused)
            }
        }
    }

    /// Whether some path would be too long.
    pub fn is_too_deep<B: Allocator + Copy>(
        &self,
        alloc: B,
        depths: &[u8],
    ) -> Result<bool, AllocError>
        requires { AreDepthsBefore DEPTH_LIMIT self.now depths.now }
        ensures deep { IfOk result
            (λ deep. IsTrue deep → (x : ℕ) × IsTrue (has_path (corrected self.now) (DEPTH_LIMIT + 1) x)) }
        ensures shallow { IfOk result
            (λ deep. IsFalse deep → (x : ℕ) → IsFalse (has_path (corrected self.now) (DEPTH_LIMIT + 1) x)) }
    {
        let mut depths = Vec::from_slice(alloc, depths)?;
        let mut log = Vec::new(alloc);
        let shallow = self.stays_shallow(alloc, &mut depths, &mut log)?;
        Ok(!shallow)
    }
}

// Whether one of the depths that were written is above the limit.
fn has_greater(depths: &[u8], log: &[(u32, u8)], limit: u8) -> bool
    requires { All (λ write. write.0 < length depths.now) log.now }
    ensures greater { IsTrue result → (place : ℕ) × (place < length depths.now)
        × (limit < slice_index depths.now place) }
    ensures most { IsFalse result → All (λ write. slice_index depths.now write.0 ≤ limit) log.now }
{
    for write in log {
        if depths[write.0 as usize] > limit {
            return true;
        }
    }
    false
}

// Puts the calves but one behind the others.
fn push_others<A: Allocator>(
    calves: Calves<'_>,
    one: u32,
    pending: &mut Vec<u32, A>,
) -> Result<(), AllocError>
    ensures { OnOk result (pending.new.items ≡ pending.old.items ++ filter (λ calf. not (calf == one)) calves.entry) }
{
    for calf in calves {
        if calf != one {
            pending.push(calf)?;
        }
    }
    Ok(())
}
