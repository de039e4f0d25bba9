//! The parents of one sex by place, with the calves of each in a chain.
ghost use Rattle.std.specs.Prelude.{◌≡◌, ◌+◌, ◌^◌, ◌-◌, ◌<◌, ◌↔◌, ℕ, [], ◌++◌, ◌∷◌, Some, None, Contains, length};
ghost use Rattle.std.specs.Prelude.{slice_set, IsFalse, IsTrue, OnOk};
ghost use Rattle.std.specs.Iterator.{YieldsFirst, item_count};
ghost use Rattle.herd_pedigree.specs.store.Calves.{AreChained, Show, node_at, first_of, next_of, parent_of, parents_of};
ghost use Rattle.herd_pedigree.specs.store.Calves.{previous_of, put};
ghost use Rattle.herd_frozen.specs.places.Places.{parent_at};
ghost use Rattle.herd_pedigree.specs.store.Undo.{without_last};

use herd_frozen::PackedIndex;
use std::alloc::{AllocError, Allocator};
use std::marker::Model;

/// What is kept of an animal: its parent, and the calves of that parent that stand beside it.
#[derive(Clone, Copy)]
pub struct ChainNode {
    parent: PackedIndex,
    previous: PackedIndex,
    next: PackedIndex,
    // The first of its own calves.
    first: PackedIndex,
}

/// The sire, or the dam, of each animal by place, and the calves of each parent.
#[derive(Drop)]
pub struct Progeny<A: Allocator> {
    nodes: Vec<ChainNode, A>,
}

impl<A: Allocator> Model for Progeny<A> {
    ghost use Rattle.std.specs.Prelude.{◌-◌, vec_len, vec_capacity};
    ghost use Rattle.herd_pedigree.specs.store.Calves.{AreChained, Progeny, parents_of};

    ghost Value = { Progeny };

    ghost view = { λ p. record {
      parents = parents_of p.nodes.items;
      room = vec_capacity p.nodes - vec_len p.nodes;
    } };

    ghost invariant = { λ p. AreChained p.nodes.items };
}

/// The calves of a parent, from the one that joined last on.
#[derive(Drop)]
pub struct Calves<'a> {
    nodes: &'a [ChainNode],
    next: Option<u32>,
}

impl<'a> Model for Calves<'a> {
    ghost use Rattle.std.specs.Prelude.{ℕ, List, ◌<◌, length};
    ghost use Rattle.std.specs.Option.{ForSome};
    ghost use Rattle.herd_pedigree.specs.store.Calves.{AreChained, chain};

    ghost Value = { List ℕ };

    ghost view = { λ c. chain c.nodes.now (length c.nodes.now) c.next };

    ghost invariant = { λ c. AreChained c.nodes.now × ForSome c.next (λ calf. calf < length c.nodes.now) };
}

impl<'a> Iterator for Calves<'a> {
    type Item = u32;

    ghost next_gives = { YieldsFirst (λ rest. rest) };

    ghost remaining = { item_count (λ rest. rest) };

    fn next(&mut self) -> Option<u32> {
        let calf = self.next?;
        self.next = node_at(self.nodes, calf).next.get();
        Some(calf)
    }
}

impl<A: Allocator> Progeny<A> {
    /// No animals. It takes no memory.
    pub fn new(alloc: A) -> Self
        ensures { result.parents ≡ [] }
    {
        Progeny {
            nodes: Vec::new(alloc),
        }
    }

    /// The place of the parent of the animal at a place.
    pub fn parent(&self, place: u32) -> Option<u32>
        requires { place < length self.now.parents }
        ensures { result ≡ parent_at self.now.parents place }
    {
        node_at(&self.nodes, place).parent.get()
    }

    /// Whether the animal at a place has calves.
    pub fn has_calves(&self, place: u32) -> bool
        requires { place < length self.now.parents }
        ensures some { IsTrue result → (calf : ℕ) × (parent_at self.now.parents calf ≡ Some place) }
        ensures none { IsFalse result → (calf : ℕ) → parent_at self.now.parents calf ≡ Some place → ⊥ }
    {
        node_at(&self.nodes, place).first.get().is_some()
    }

    /// The places of the calves of the animal at a place.
    pub fn calves(&self, place: u32) -> Calves<'_>
        requires { place < length self.now.parents }
        ensures { (calf : ℕ) → Contains result calf ↔ (parent_at self.now.parents calf ≡ Some place) }
    {
        Calves {
            nodes: self.nodes.as_slice(),
            next: node_at(&self.nodes, place).first.get(),
        }
    }

    /// Makes room for one more animal.
    pub fn reserve(&mut self) -> Result<(), AllocError>
        ensures parents { self.new.parents ≡ self.old.parents }
        ensures room { OnOk result (0 < self.new.room) }
    {
        self.nodes.reserve(1)
    }

    /// Adds an animal with this parent. It takes no memory.
    pub(crate) fn push(&mut self, parent: Option<u32>)
        requires few { length self.old.parents + 1 < 2 ^ 32 }
        requires within { (p : ℕ) → parent ≡ Some p → p < length self.old.parents }
        requires room { 0 < self.old.room }
        ensures { self.new.parents ≡ self.old.parents ++ parent ∷ [] }
    {
        let calf = self.nodes.len() as u32;
        self.push_alone();
        if let Some(parent) = parent {
            self.join(calf, parent);
        }
    }

    // Adds an animal with no known parent.
    fn push_alone(&mut self)
        requires few { length self.old.parents + 1 < 2 ^ 32 }
        requires room { 0 < self.old.room }
        ensures { self.new.parents ≡ self.old.parents ++ None ∷ [] }
    {
        let alone = ChainNode {
            parent: PackedIndex::none(),
            previous: PackedIndex::none(),
            next: PackedIndex::none(),
            first: PackedIndex::none(),
        };
        self.nodes.push_reserved(alone);
    }

    /// Sets the parent of the animal at a place. It takes no memory.
    pub(crate) fn set(&mut self, place: u32, parent: Option<u32>)
        requires here { place < length self.old.parents }
        requires within { (p : ℕ) → parent ≡ Some p → p < length self.old.parents }
        ensures { self.new.parents ≡ slice_set self.old.parents place parent }
    {
        self.part(place);
        if let Some(parent) = parent {
            self.join(place, parent);
        }
    }

    /// Takes the last animal away, which has no calves.
    pub(crate) fn pop(&mut self)
        requires some { 0 < length self.old.parents }
        requires childless { (calf : ℕ) → parent_at self.old.parents calf ≡ Some (length self.old.parents - 1) → ⊥ }
        ensures { self.new.parents ≡ without_last self.old.parents }
    {
        let last = self.nodes.len() - 1;
        self.part(last as u32);
        self.nodes.truncate(last);
    }

    // Gives a parent to an animal that has none.
    fn join(&mut self, calf: u32, parent: u32)
        requires here { calf < length self.old.parents }
        requires within { parent < length self.old.parents }
        requires none { parent_at self.old.parents calf ≡ None }
        ensures { self.new.parents ≡ slice_set self.old.parents calf (Some parent) }
    {
        join(&mut self.nodes, calf, parent);
    }

    // Takes the parent of an animal away.
    fn part(&mut self, calf: u32)
        requires here { calf < length self.old.parents }
        ensures { self.new.parents ≡ slice_set self.old.parents calf None }
    {
        part(&mut self.nodes, calf);
    }
}

// Puts an animal before the other calves of a parent.
fn join(nodes: &mut [ChainNode], calf: u32, parent: u32)
    requires chained { AreChained nodes.old }
    requires here { calf < length nodes.old }
    requires within { parent < length nodes.old }
    requires none { parent_of nodes.old calf ≡ None }
    ensures chained { AreChained nodes.new }
    ensures parents { parents_of nodes.new ≡ slice_set (parents_of nodes.old) calf (Some parent) }
{
    let first = node_at(nodes, parent).first;
    let own = PackedIndex::at(calf);
    let shared = PackedIndex::at(parent);
    set_first(nodes, shared, own);
    set_previous(nodes, first, own);
    set_next(nodes, own, first);
    set_parent(nodes, calf, shared);
}

// Takes an animal from among the calves of its parent, where it has one.
fn part(nodes: &mut [ChainNode], calf: u32)
    requires chained { AreChained nodes.old }
    requires here { calf < length nodes.old }
    ensures chained { AreChained nodes.new }
    ensures parents { parents_of nodes.new ≡ slice_set (parents_of nodes.old) calf None }
{
    let node = node_at(nodes, calf);
    let own = PackedIndex::at(calf);
    let none = PackedIndex::none();
    set_first(nodes, led_by(&node), node.next);
    set_next(nodes, node.previous, node.next);
    set_previous(nodes, node.next, node.previous);
    set_next(nodes, own, none);
    set_previous(nodes, own, none);
    set_parent(nodes, calf, none);
}

// What is kept of the animal at a place.
#[inline(always)]
fn node_at(nodes: &[ChainNode], place: u32) -> ChainNode
    requires { place < length nodes.now }
    ensures { result ≡ node_at nodes.now place }
{
    nodes[place as usize]
}

// The parent of which an animal is the first calf.
fn led_by(node: &ChainNode) -> PackedIndex
    ensures first { node.now.previous ≡ None → result ≡ node.now.parent }
    ensures later { (calf : ℕ) → node.now.previous ≡ Some calf → result ≡ None }
{
    match node.previous.get() {
        Some(_) => PackedIndex::none(),
        None => node.parent,
    }
}

// Sets the parent of the animal at a place.
fn set_parent(nodes: &mut [ChainNode], place: u32, parent: PackedIndex)
    requires { place < length nodes.old }
    ensures { Show nodes.new (length nodes.old) (put (Some place) parent (parent_of nodes.old))
        (previous_of nodes.old) (next_of nodes.old) (first_of nodes.old) }
{
    let node = nodes[place as usize];
    nodes[place as usize] = ChainNode { parent, ..node };
}

// Sets which calf stands before that at a place, where there is one.
fn set_previous(nodes: &mut [ChainNode], place: PackedIndex, previous: PackedIndex)
    requires { (p : ℕ) → place ≡ Some p → p < length nodes.old }
    ensures { Show nodes.new (length nodes.old) (parent_of nodes.old)
        (put place previous (previous_of nodes.old)) (next_of nodes.old) (first_of nodes.old) }
{
    if let Some(place) = place.get() {
        let node = nodes[place as usize];
        nodes[place as usize] = ChainNode { previous, ..node };
    }
}

// Sets which calf stands behind that at a place, where there is one.
fn set_next(nodes: &mut [ChainNode], place: PackedIndex, next: PackedIndex)
    requires { (p : ℕ) → place ≡ Some p → p < length nodes.old }
    ensures { Show nodes.new (length nodes.old) (parent_of nodes.old) (previous_of nodes.old)
        (put place next (next_of nodes.old)) (first_of nodes.old) }
{
    if let Some(place) = place.get() {
        let node = nodes[place as usize];
        nodes[place as usize] = ChainNode { next, ..node };
    }
}

// Sets the first calf of the animal at a place, where there is one.
fn set_first(nodes: &mut [ChainNode], place: PackedIndex, first: PackedIndex)
    requires { (p : ℕ) → place ≡ Some p → p < length nodes.old }
    ensures { Show nodes.new (length nodes.old) (parent_of nodes.old) (previous_of nodes.old)
        (next_of nodes.old) (put place first (first_of nodes.old)) }
{
    if let Some(place) = place.get() {
        let node = nodes[place as usize];
        nodes[place as usize] = ChainNode { first, ..node };
    }
}
