#![tactic(auto)]
//! Values in boxes: a wide value stands alone in memory, and who has it is one word wide.
//!
//! | call | rule that it meets |
//! |---|---|
//! | [`Boxed::new`] | a box of its own for a value, if there is memory for one |
//! | `*boxed`, `boxed.field` | the value in it |
//!
//! In contracts a box is the value in it: who reads them need not know where the value stands.

ghost use Rattle.std.specs.Prelude.{◌≡◌, IfOk};

use std::alloc::{AllocError, Global};
use std::marker::Model;
use std::ops::Deref;

/// A value in a box of its own.
#[derive(Debug, Drop)]
pub struct Boxed<T> {
    inner: Box<T>,
}

impl<T> Model for Boxed<T> {
    ghost Value = { T };

    ghost view = { λ b. b.inner.value };
}

/// The value that is in the box.
impl<T> Deref for Boxed<T> {
    type Target = T;

    ghost deref_gives = { λ boxed value. value ≡ boxed };

    fn deref(&self) -> &T {
        &*self.inner
    }
}

impl<T: Drop> Boxed<T> {
    /// Puts a value into a box.
    ///
    /// # Errors
    ///
    /// There is no memory for the box.
    pub fn new(alloc: Global, value: T) -> Result<Boxed<T>, AllocError>
        ensures { IfOk result (λ boxed. boxed ≡ value) }
    {
        let inner = Box::new(alloc, value)?;
        Ok(Boxed { inner })
    }
}
