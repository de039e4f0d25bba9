//! Growths that are refused, and when room suffices.

ghost use Rattle.std.specs.Prelude.{◌<◌, length};
ghost use Rattle.herd_frozen.specs.declared.TheConstants.{DEPTH_LIMIT};
ghost use Rattle.herd_advice.specs.BookCoefficients.{AreBookCoefficients};

use herd_advice::*;
use herd_fixtures::Name::{Bull, Cow};
use herd_fixtures::{frozen_of, full_sibs};
use herd_frozen::Frozen;
use herd_lineage::Lineage;
use herd_pruned::coefficient_of;
use linked_list_allocator::LocalHeap;
use std::alloc::Global;
use std::process::Abort;
use std::test::Fail;

// Whether the coefficient of the youngest bull, by the list and by its ancestors alone, is the right one, and nothing
// where memory is refused.
fn lists(heap: &LocalHeap, frozen: &Frozen<Global>, rank: u32) -> Option<bool>
    requires { rank < length frozen.now }
{
    let list = coefficients_plain(heap, frozen).ok()?;
    let own = coefficient_of(heap, frozen.lineage(), rank).ok()?;
    Some(list.list().get(rank as usize) == Some(&own) && own == 1 << 118)
}

// Whether the coefficient of a calf of the two youngest is the right one, and nothing where memory is refused.
fn advises(
    heap: &LocalHeap,
    frozen: &Frozen<Global>,
    coefficients: &Coefficients<Global>,
) -> Option<bool>
    requires { AreBookCoefficients DEPTH_LIMIT frozen.now coefficients.now }
{
    match mating(
        heap,
        frozen,
        coefficients,
        &Bull(5).number(),
        &Cow(6).number(),
    ) {
        Ok(value) => Some(value == 5 << 116),
        Err(MatingFault::Memory) => None,
        Err(_) => Some(false),
    }
}

// Whether the relationship of the youngest bull with itself is the right one, and nothing where memory is refused.
fn traces(
    heap: &LocalHeap,
    frozen: &Frozen<Global>,
    coefficients: &Coefficients<Global>,
    rank: u32,
) -> Option<bool>
    requires coefficients { AreBookCoefficients DEPTH_LIMIT frozen.now coefficients.now }
    requires rank { rank < length frozen.now }
{
    let told = trace(heap, frozen, coefficients.list(), rank);
    told.map(|value| value == (1 << 120) + (1 << 118)).ok()
}

// What is answered in heaps of which each is a little larger than the last.
fn expect_in_time(
    rt: &(impl Abort + AllocGlobal),
    frozen: &Frozen<Global>,
    coefficients: &Coefficients<Global>,
) -> Result<(), Fail>
    requires { AreBookCoefficients DEPTH_LIMIT frozen.now coefficients.now }
{
    let rank = frozen.rank(&Bull(5).number()).ok_or("absent")?;
    assert_eq!(rt; mendelian(frozen, coefficients.list(), rank), 1 << 119);
    let mut refused = 0u32;
    let mut told = [None; 3];
    for size in 1..256 {
        let heap = LocalHeap::new(rt.alloc(), 16 * size)?;
        told = [
            lists(&heap, frozen, rank),
            advises(&heap, frozen, coefficients),
            traces(&heap, frozen, coefficients, rank),
        ];
        assert!(rt; !told.contains(&Some(false)));
        if told == [None; 3] {
            refused = refused.saturating_add(1);
        }
    }
    assert!(rt; 0 < refused);
    assert_eq!(rt; told, [Some(true); 3]);
    Ok(())
}

// Every growth is refused in turn.
#[test]
fn answers_memory_or_what_is_asked(rt: HostRuntime) -> Result<(), Fail> {
    let frozen = frozen_of(rt.alloc(), &full_sibs())?;
    let coefficients = coefficients_plain(rt.alloc(), &frozen)?;
    expect_in_time(&rt, &frozen, &coefficients)
}

// In a heap where a lineage of no animals finds room, one of many finds none.
#[test]
fn makes_room_for_as_many_as_it_is_told(rt: HostRuntime) -> Result<(), Fail> {
    let heap = LocalHeap::new(rt.alloc(), 8_192)?;
    assert!(rt; Lineage::with_capacity(&heap, 0).is_ok());
    assert!(rt; Lineage::with_capacity(&heap, 1_000).is_err());
    Ok(())
}
