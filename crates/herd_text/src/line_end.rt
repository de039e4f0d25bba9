ghost use Rattle.std.specs.Prelude.{◌≡◌, ◌++◌, OnOk};
ghost use Rattle.std.specs.Option.{ForSome};

use crate::text::Text;
use std::alloc::{AllocError, Allocator};

/// A value that the lines of a list end with.
pub trait LastValue: Copy + PartialEq {
    ghost use Rattle.std.specs.Prelude.{◌≡◌, ◌++◌, ℕ, List, true, OnOk};

    /// The end of a line with it.
    ghost line_end: { Self → List ℕ };

    /// Adds the end of a line with it.
    fn push_line_end<A: Allocator>(self, text: &mut Text<A>) -> Result<(), AllocError>
        ensures { OnOk result (text.new ≡ text.old ++ line_end self) };

    /// Lines with equal values end alike.
    ghost alike: { (a b : Self) → Self.eq a b ≡ true → line_end a ≡ line_end b };
}

/// The end of a line, made once for equal values that follow one another.
#[derive(Drop)]
pub struct LineEnd<V: LastValue, A: Allocator> {
    value: Option<V>,
    text: Text<A>,
    ghost made: { ForSome value (λ value. text ≡ V.line_end value) },
}

impl<V: LastValue, A: Allocator> LineEnd<V, A> {
    /// None is made yet.
    pub fn new(alloc: A) -> Self {
        LineEnd {
            value: None,
            text: Text::new(alloc),
        }
    }

    /// Adds the end of a line with this value.
    pub fn push_to(&mut self, text: &mut Text<A>, value: V) -> Result<(), AllocError>
        ensures { OnOk result (text.new ≡ text.old ++ V.line_end value) }
    {
        self.make(value)?;
        text.push(self.text.bytes())
    }

    // Makes the end of a line with this value, where the one that is there isn't of an equal value.
    fn make(&mut self, value: V) -> Result<(), AllocError>
        ensures { OnOk result (self.new.text ≡ V.line_end value) }
    {
        if self.value == Some(value) {
            return Ok(());
        }
        self.value = None;
        self.text.clear();
        value.push_line_end(&mut self.text)?;
        self.value = Some(value);
        Ok(())
    }
}
