//! Coefficients by the tabular method, of whose matrix a window is kept.
ghost use Rattle.std.specs.Prelude.{◌≡◌, ◌≢◌, ℕ, ◌+◌, ◌*◌, ◌/◌, ◌%◌, ◌^◌, ◌<◌, ◌≤◌};
ghost use Rattle.std.specs.Prelude.{All, [], length, slice_index, IfOk, OnOk};
ghost use Rattle.std.specs.Option.{ForSome, option_map, option_map_or};
ghost use Rattle.herd_lineage.specs.declared.TheConstants.{DEPTH_LIMIT, MOST_ANIMALS};
ghost use Rattle.herd_kinship.specs.Coefficients.{AreCoefficients, coefficient_at};
ghost use Rattle.herd_kinship.specs.Ranks.{AreParentsAt};
ghost use Rattle.herd_pruned.specs.Window.{HasParentsWithin, IsLast, at, with_parent};

use herd_kinship::{Coefficients, ONE};
use herd_lineage::{Lineage, Parents};
use std::alloc::{AllocError, Allocator};
use std::marker::Model;

/// The numerator relationship matrix of a lineage's first animals: each one's coefficient, and the entries of the last
/// of them with one another. An animal's place is the remainder of its rank by the number of places.
#[derive(Drop)]
struct Window<'a, F: Allocator, A: Allocator> {
    lineage: &'a Lineage<F>,
    places: u32,
    // Row by row of the places. What stands at the place of nobody doesn't count.
    entries: Vec<u128, A>,
    coefficients: Vec<u128, A>,
}

impl<'a, F: Allocator, A: Allocator> Model for Window<'a, F, A> {
    ghost use Rattle.herd_lineage.specs.Lineage.{IsLineage};
    ghost use Rattle.herd_lineage.specs.declared.TheConstants.{DEPTH_LIMIT, MOST_ANIMALS};
    ghost use Rattle.herd_pruned.specs.Window.{HasParentsWithin, IsWindow, Window, window_of};

    ghost Value = { Window };

    ghost view = { λ window. record {
      lineage = window.lineage.now;
      places = window.places;
      entries = window.entries.items;
      coefficients = window.coefficients.items;
    } };

    ghost invariant = { λ window. IsLineage DEPTH_LIMIT MOST_ANIMALS window.lineage.now
        × HasParentsWithin window.lineage.now window.places
        × IsWindow DEPTH_LIMIT
        (window_of window.lineage.now window.places window.entries.items window.coefficients.items) };
}

/// Within how many successive animals each one stands with its known parents: one more than the greatest distance of
/// an animal and a parent.
pub(crate) fn span_of<F: Allocator>(lineage: &Lineage<F>) -> u32
    ensures parents { HasParentsWithin lineage.now result }
    ensures some { 0 < result }
{
    let mut span = 1;
    for rank in 0..lineage.len() {
        let parents = lineage.parents(rank);
        span = reach(rank, parents.sire, span);
        span = reach(rank, parents.dam, span);
    }
    span
}

// The span of an animal and its parent, where that is known and further away.
fn reach(rank: u32, parent: Option<u32>, span: u32) -> u32
    requires few { rank < MOST_ANIMALS }
    requires before { ForSome parent (λ p. p < rank) }
    ensures wider { span ≤ result }
    ensures within { ForSome parent (λ p. rank < p + result) }
{
    match parent {
        Some(parent) => span.max(rank - parent + 1),
        None => span,
    }
}

/// The coefficients of a lineage's animals, row by row of the matrix (Emik and Terrill 1949), of which a window is
/// kept: the last animals, so many that each next one finds its parents. The only error is a growth of memory that is
/// refused.
pub(crate) fn coefficients_in_window<F: Allocator, A: Allocator + Clone>(
    alloc: A,
    lineage: &Lineage<F>,
    span: u32,
) -> Result<Coefficients<A>, AllocError>
    requires parents { HasParentsWithin lineage.now span }
    requires some { 0 < span }
    ensures { IfOk result (AreCoefficients DEPTH_LIMIT lineage.now) }
{
    let mut window = Window::new(alloc, lineage, span)?;
    for _ in 0..lineage.len() {
        window.push()?;
    }
    Ok(window.finish())
}

impl<'a, F: Allocator, A: Allocator + Clone> Window<'a, F, A> {
    // Of no animal yet.
    fn new(alloc: A, lineage: &'a Lineage<F>, places: u32) -> Result<Window<'a, F, A>, AllocError>
        requires parents { HasParentsWithin lineage.now places }
        requires some { 0 < places }
        ensures lineage { IfOk result (λ window. window.lineage ≡ lineage.now) }
        ensures coefficients { IfOk result (λ window. window.coefficients ≡ []) }
    {
        let _animals = lineage.len();
        Ok(Window {
            lineage,
            places,
            entries: vec![in alloc.clone()?; 0u128; places as usize * places as usize]?,
            coefficients: Vec::new(alloc),
        })
    }
}

impl<F: Allocator, A: Allocator> Window<'_, F, A> {
    // The coefficients, once all animals have theirs.
    fn finish(self) -> Coefficients<A>
        requires { length self.coefficients ≡ length self.lineage }
        ensures { AreCoefficients DEPTH_LIMIT self.entry.lineage result }
    {
        Coefficients::from_list(self.coefficients)
    }

    // Adds the next animal.
    fn push(&mut self) -> Result<(), AllocError>
        requires { length self.old.coefficients < length self.old.lineage }
        ensures lineage { OnOk result (self.new.lineage ≡ self.old.lineage) }
        ensures animals { OnOk result (length self.new.coefficients ≡ length self.old.coefficients + 1) }
    {
        let rank = self.coefficients.len() as u32;
        let parents = self.lineage.parents(rank);
        let coefficient = self.coefficient(parents);
        let place = rank % self.places;
        let sire = place_of(self.places, parents.sire);
        let dam = place_of(self.places, parents.dam);
        self.coefficients.push(coefficient)?;
        write_animal(
            &mut self.entries,
            self.places,
            place,
            sire,
            dam,
            ONE + coefficient,
        );
        Ok(())
    }

    // Half the entry of the parents of the next animal.
    fn coefficient(&self, parents: Parents) -> u128
        requires { AreParentsAt self.now.lineage (length self.now.coefficients) parents }
        ensures { result ≡ coefficient_at DEPTH_LIMIT self.now.lineage (length self.now.coefficients) }
    {
        prove!(self.coefficients.len() <= self.lineage.len() as usize);
        match (parents.sire, parents.dam) {
            (Some(sire), Some(dam)) => self.entry(sire, dam) / 2,
            _ => 0,
        }
    }

    // The entry of two of the last animals.
    fn entry(&self, x: u32, y: u32) -> u128
        requires x { IsLast self.now.places (length self.now.coefficients) x }
        requires y { IsLast self.now.places (length self.now.coefficients) y }
        ensures { result ≡ at self.now.places self.now.entries (x % self.now.places) (y % self.now.places) }
    {
        let row = (x % self.places) as usize * self.places as usize;
        self.entries[row + (y % self.places) as usize]
    }
}

// The place of an animal, where that is known.
fn place_of(places: u32, animal: Option<u32>) -> Option<u32>
    requires { 0 < places }
    ensures { result ≡ option_map (λ x. x % places) animal }
{
    animal.map(|animal| animal % places)
}

// Writes the entries of an animal at a place, by those of its parents: with the others, and with itself.
fn write_animal(
    entries: &mut [u128],
    places: u32,
    place: u32,
    sire: Option<u32>,
    dam: Option<u32>,
    own: u128,
)
    requires long { length entries.old ≡ places * places }
    requires small { All (λ e. e < 2 ^ (2 * DEPTH_LIMIT + 1)) entries.old }
    requires place { place < places }
    requires sire { ForSome sire (λ s. (s < places) × (s ≢ place)) }
    requires dam { ForSome dam (λ d. (d < places) × (d ≢ place)) }
    requires own { own < 2 ^ (2 * DEPTH_LIMIT + 1) }
    ensures long { length entries.new ≡ length entries.old }
    ensures small { All (λ e. e < 2 ^ (2 * DEPTH_LIMIT + 1)) entries.new }
    ensures own { at places entries.new place place ≡ own }
    ensures row { (y : ℕ) → y < places → y ≢ place → at places entries.new place y
        ≡ (with_parent places entries.old sire y + with_parent places entries.old dam y) / 2 }
    ensures column { (x : ℕ) → x < places → at places entries.new x place ≡ at places entries.new place x }
    ensures others { (x y : ℕ) → x < places → y < places → x ≢ place → y ≢ place
        → at places entries.new x y ≡ at places entries.old x y }
{
    write_row(entries, places, place, sire, dam);
    entries[place as usize * places as usize + place as usize] = own;
    write_column(entries, places, place);
}

// Writes into the row at a place the halves of the parents' rows.
fn write_row(entries: &mut [u128], places: u32, place: u32, sire: Option<u32>, dam: Option<u32>)
    requires long { length entries.old ≡ places * places }
    requires small { All (λ e. e < 2 ^ (2 * DEPTH_LIMIT + 1)) entries.old }
    requires place { place < places }
    requires sire { ForSome sire (λ s. (s < places) × (s ≢ place)) }
    requires dam { ForSome dam (λ d. (d < places) × (d ≢ place)) }
    ensures long { length entries.new ≡ length entries.old }
    ensures small { All (λ e. e < 2 ^ (2 * DEPTH_LIMIT + 1)) entries.new }
    ensures row { (y : ℕ) → y < places → at places entries.new place y
        ≡ (with_parent places entries.old sire y + with_parent places entries.old dam y) / 2 }
    ensures others { (x y : ℕ) → x < places → y < places → x ≢ place
        → at places entries.new x y ≡ at places entries.old x y }
{
    let row = place as usize * places as usize;
    let sire = row_of(places, sire);
    let dam = row_of(places, dam);
    for y in 0..places as usize {
        entries[row + y] = (entry_in(entries, sire, y) + entry_in(entries, dam, y)) / 2;
    }
}

// Writes into the column at a place what stands in the row there.
fn write_column(entries: &mut [u128], places: u32, place: u32)
    requires long { length entries.old ≡ places * places }
    requires small { All (λ e. e < 2 ^ (2 * DEPTH_LIMIT + 1)) entries.old }
    requires place { place < places }
    ensures long { length entries.new ≡ length entries.old }
    ensures small { All (λ e. e < 2 ^ (2 * DEPTH_LIMIT + 1)) entries.new }
    ensures column { (x : ℕ) → x < places → at places entries.new x place ≡ at places entries.old place x }
    ensures others { (x y : ℕ) → x < places → y < places → y ≢ place
        → at places entries.new x y ≡ at places entries.old x y }
{
    let row = place as usize * places as usize;
    for x in 0..places as usize {
        entries[x * places as usize + place as usize] = entries[row + x];
    }
}

// Where the row at a place begins, where there is one.
fn row_of(places: u32, place: Option<u32>) -> Option<usize>
    ensures { result ≡ option_map (λ p. p * places) place }
{
    place.map(|place| place as usize * places as usize)
}

// The entry of a row, which is 0 of no row.
#[inline(always)]
fn entry_in(entries: &[u128], row: Option<usize>, y: usize) -> u128
    requires within { ForSome row (λ r. r + y < length entries.now) }
    requires small { All (λ e. e < 2 ^ (2 * DEPTH_LIMIT + 1)) entries.now }
    ensures value { result ≡ option_map_or (λ r. slice_index entries.now (r + y)) row 0 }
    ensures small { result < 2 ^ (2 * DEPTH_LIMIT + 1) }
{
    match row {
        Some(row) => entries[row + y],
        None => 0,
    }
}
