//! What holds of registers and their copies. The calls do nothing: who calls one has its `ensures` as a fact.

ghost use Rattle.std.specs.Prelude.{◌≡◌, [], List};
ghost use Rattle.herd_register.specs.Change.{AreChangesOf};
ghost use Rattle.herd_register.specs.Copybook.{all_taken_over, copy_of, copybook_of};
ghost use Rattle.herd_register.specs.declared.change.Change.{Change};

use crate::register::Register;
use std::alloc::Allocator;

/// An empty copy that took over what each step of a register made of the records, one after the other, has the book of
/// the register's commands, and counts their steps.
pub fn copies<A: Allocator>(register: &Register<A>)
    ensures { (changes : List Change) → AreChangesOf register.now.limits register.now.journal changes
        → all_taken_over (copybook_of register.now.limits [] 0) changes
        ≡ copy_of register.now.limits register.now.journal }
{
    prove!(register.journal().len() <= register.limits().steps as usize);
}
