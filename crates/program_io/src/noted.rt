//! Values that only proofs can read. A struct uses them to record the part of its past that its contracts refer to; a
//! running program spends nothing on them.

ghost use Rattle.std.specs.Prelude.{◌≡◌};
ghost use base.Fml.{ftrue};

use std::marker::{Model, PhantomData};

/// A way to derive a value of type `T` from one of type `X`, for proofs only.
pub trait Reads<X, T> {
    ghost value: { X → T };
}

/// A value that only proofs can read. It has no bytes.
///
/// The value is determined only by the contracts of the calls that create it. It describes code that is generic over a
/// trait and reads the value through a ghost member.
pub struct Noted<T> {
    marker: PhantomData<T>,
    pub ghost value: { T },
}

impl<T> Model for Noted<T> {
    ghost also_owns = { λ _. ftrue };
}

impl<T> Noted<T> {
    /// Returns a note of the value that `M` derives from `x`. It does nothing when a program runs.
    pub fn of<X, M: Reads<X, T>>(x: &X) -> Noted<T>
        ensures { result.value ≡ M.value x.now }
    {
        let _ = x;
        Noted {
            marker: PhantomData,
        }
    }

    /// Returns another note of the same value.
    pub fn again(&self) -> Noted<T>
        ensures { result.value ≡ self.now.value }
    {
        Noted::of::<Noted<T>, Same>(self)
    }
}

/// Derives the value of an existing note.
struct Same;

impl<T> Reads<Noted<T>, T> for Same {
    ghost value = { λ noted. noted.value };
}

impl<T> Drop for Noted<T> {
    fn drop(self) {
        let Self { marker: _ } = self;
    }
}
