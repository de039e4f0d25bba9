//! An index or none, in four bytes.
ghost use Rattle.std.specs.Prelude.{◌≡◌, ◌<◌, None, Some, IfSome};
ghost use Rattle.herd_lineage.specs.PackedIndex.{nowhere};

use std::marker::Model;

/// The place of an animal, or its rank, or none, in four bytes, where an `Option<u32>` takes eight.
#[derive(Clone, Copy)]
pub struct PackedIndex {
    number: u32,
}

impl Model for PackedIndex {
    ghost use Rattle.std.specs.Prelude.{ℕ, Option, Some, None, cond};
    ghost use Rattle.std.proofs.Common.{sym, ap, ◌∙◌, ⊎_elim};
    ghost use Rattle.std.proofs.lemmas.Bool.{cases_eq, eq-eqb, ne_eqb};
    ghost use Rattle.herd_lineage.specs.PackedIndex.{nowhere, number_kept, index_kept};

    ghost Value = { Option ℕ };

    ghost view = { λ p. index_kept p.number };

    ghost inverse = { λ index. record { number = number_kept index } };

    // Neither loses anything.
    ghost inverse_ok = { λ a h i. record {
      number = ⊎_elim
          (λ same. ap (λ t. number_kept (cond t None (Some a.number))) (eq-eqb a.number nowhere same) ∙ sym same)
          (λ other. ap (λ t. number_kept (cond t None (Some a.number))) (ne_eqb a.number nowhere other))
          (cases_eq a.number nowhere) i;
    } };
}

impl PackedIndex {
    /// No index.
    #[inline(always)]
    pub fn none() -> PackedIndex
        ensures { result ≡ None }
    {
        PackedIndex { number: u32::MAX }
    }

    /// An index.
    #[inline(always)]
    pub fn at(index: u32) -> PackedIndex
        requires { index < nowhere }
        ensures { result ≡ Some index }
    {
        PackedIndex { number: index }
    }

    /// An index or none.
    #[inline(always)]
    pub fn of(index: Option<u32>) -> PackedIndex
        requires { IfSome index (λ index. index < nowhere) }
        ensures { result ≡ index }
    {
        match index {
            Some(index) => PackedIndex::at(index),
            None => PackedIndex::none(),
        }
    }

    /// The index or none.
    #[inline(always)]
    pub fn get(self) -> Option<u32>
        ensures { result ≡ self }
    {
        if self.number == u32::MAX {
            None
        } else {
            Some(self.number)
        }
    }
}
