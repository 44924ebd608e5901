//! Values that only proofs read. They take no memory, and making one does nothing at run time.
ghost use Rattle.std.specs.Prelude.{◌≡◌};
ghost use Rattle.std.specs.Borrow.{ftrue};

use std::marker::{Model, PhantomData};

/// What a value that only proofs read is read off.
pub(crate) trait Shows<T> {
    /// The value.
    ghost shown: { Self → T };
}

/// A value that only proofs read.
#[derive(Drop)]
pub(crate) struct Ghost<T> {
    marker: PhantomData<T>,
    pub ghost value: { T },
}

impl<T> Model for Ghost<T> {
    ghost also_owns = { λ _. ftrue };
}

impl<T> Shows<T> for Ghost<T> {
    ghost shown = { λ x. x.value };
}

impl<T> Ghost<T> {
    /// The value that is read off this.
    pub(crate) fn of<X: Shows<T>>(x: &X) -> Ghost<T>
        ensures { result.value ≡ X.shown x.now }
    {
        let _ = x;
        Ghost {
            marker: PhantomData,
        }
    }
}
