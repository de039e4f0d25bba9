ghost use Rattle.std.specs.Prelude.{◌≡◌, ◌<◌, ◌≤◌, length, map, IfOk, IsPermutation, IsSorted};
ghost use Rattle.std.specs.List.{range_with_len};
ghost use Rattle.std.specs.List.Sorted.{IsSortedBy};
ghost use Rattle.std.specs.Map.{keys_of};
ghost use Rattle.std.specs.Ordering.{int_cmp, is_lt};
ghost use Rattle.herd_frozen.specs.freezing.AgeOrder.{AreByDay, IsDayEnd, key_of};
ghost use Rattle.herd_frozen.specs.freezing.Freeze.{AreRanks, IsAgeOrder, key_cmp, places_of};
ghost use Rattle.herd_frozen.specs.declared.TheConstants.{MOST_ANIMALS};

use crate::freezing::registered::Registered;
use herd_animal::{AnimalNumber, Day};
use std::alloc::{AllocError, Allocator};

/// What the age of an animal is compared by, with its place of registration.
#[derive(Clone, Copy, Debug, PartialEq, Eq, PartialOrd, Ord)]
pub(crate) struct AgeKey {
    pub(crate) birth: Day,
    pub(crate) number: AnimalNumber,
    pub(crate) place: u32,
}

/// An animal by its birth day and its place of registration, which is moved sooner than its key.
#[derive(Clone, Copy)]
pub(crate) struct Born {
    birth: Day,
    place: u32,
}

/// The keys of the records, in age order.
pub(crate) fn by_age<A: Allocator + Clone, S: Registered>(
    alloc: A,
    records: &S,
) -> Result<Vec<AgeKey, A>, AllocError>
    requires { length (S.book records.now) ≤ MOST_ANIMALS }
    ensures { IfOk result (λ keys. IsAgeOrder (S.book records.now) keys.items) }
{
    let births = births_by_day(alloc.clone()?, records)?;
    let mut keys = keys_of_births(alloc, records, &births)?;
    sort_each_day(&mut keys);
    Ok(keys)
}

// The keys of the animals.
fn keys_of_births<A: Allocator, S: Registered>(
    alloc: A,
    records: &S,
    births: &[Born],
) -> Result<Vec<AgeKey, A>, AllocError>
    requires { AreByDay (S.book records.now) births.now }
    ensures { IfOk result (λ keys. keys.items ≡ map (key_of (keys_of (S.book records.now))) births.now) }
{
    let mut keys = Vec::with_capacity(alloc, births.len())?;
    for born in births {
        keys.push_reserved(AgeKey {
            birth: born.birth,
            number: records.kept_at(born.place as usize).number,
            place: born.place,
        });
    }
    Ok(keys)
}

// The animals by their birth days.
fn births_by_day<A: Allocator, S: Registered>(
    alloc: A,
    records: &S,
) -> Result<Vec<Born, A>, AllocError>
    requires { length (S.book records.now) ≤ MOST_ANIMALS }
    ensures { IfOk result (λ births. AreByDay (S.book records.now) births.items) }
{
    let count = records.count();
    let mut births = Vec::with_capacity(alloc, count)?;
    for place in 0..count {
        births.push_reserved(Born {
            birth: records.kept_at(place).birth,
            place: place as u32,
        });
    }
    births.sort_unstable_by_key(|born| born.birth);
    Ok(births)
}

// Sorts keys that are sorted by their birth days: those of each day by themselves.
fn sort_each_day(keys: &mut [AgeKey])
    requires { IsSortedBy (λ x y. is_lt (int_cmp x.birth y.birth)) keys.old }
    ensures same { IsPermutation keys.old keys.new }
    ensures sorted { IsSorted key_cmp keys.new }
{
    let mut from = 0;
    while from < keys.len() {
        let end = day_end(keys, from);
        keys[from..end].sort_unstable();
        from = end;
    }
}

// Where the birth day of a key ends.
fn day_end(keys: &[AgeKey], from: usize) -> usize
    requires { from < length keys.now }
    ensures { IsDayEnd keys.now from result }
{
    let mut end = from + 1;
    while end < keys.len() && keys[end].birth == keys[from].birth {
        end += 1;
    }
    end
}

/// Where each place of registration stands in age order.
pub(crate) fn ranks_of<A: Allocator>(alloc: A, keys: &[AgeKey]) -> Result<Vec<u32, A>, AllocError>
    requires few { length keys.now ≤ MOST_ANIMALS }
    requires places { IsPermutation (range_with_len 0 (length keys.now)) (places_of keys.now) }
    ensures { IfOk result (λ ranks. AreRanks keys.now ranks.items) }
{
    let mut ranks = vec![in alloc; 0u32; keys.len()]?;
    for (rank, key) in keys.iter().enumerate() {
        ranks[key.place as usize] = rank as u32;
    }
    Ok(ranks)
}
