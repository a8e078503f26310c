//! Values of no bytes that clauses read and the program does not keep.
#![tactic(auto)]

ghost use Rattle.std.specs.Prelude.{◌≡◌};
ghost use Rattle.std.specs.Borrow.{ftrue};

use std::marker::{Model, PhantomData};

/// How a ghost value is read off a real one.
pub trait Reads<X, T> {
    ghost read: { X → T };
}

/// A ghost value. It has no bytes and owns nothing; only clauses see `value`.
///
/// To change one, a new one is read off a struct that holds the old one and what it depends on.
pub struct Known<T> {
    marker: PhantomData<T>,
    pub ghost value: { T },
}

impl<T> Model for Known<T> {
    ghost also_owns = { λ _. ftrue };
}

/// The value itself.
struct Itself;

impl<T> Reads<T, T> for Itself {
    ghost read = { λ x. x };
}

/// What is known already.
struct Same;

impl<T> Reads<Known<T>, T> for Same {
    ghost read = { λ x. x.value };
}

impl<T> Known<T> {
    /// The value that `M` reads off this one.
    pub fn of<X, M: Reads<X, T>>(x: &X) -> Known<T>
        ensures { result.value ≡ M.read x.now }
    {
        let _ = x;
        Known {
            marker: PhantomData,
        }
    }

    /// This value.
    pub fn new(value: &T) -> Known<T>
        ensures { result.value ≡ value.now }
    {
        Known::of::<T, Itself>(value)
    }

    /// The same value once more.
    pub fn again(&self) -> Known<T>
        ensures { result.value ≡ self.now.value }
    {
        Known::of::<Known<T>, Same>(self)
    }
}

impl<T> Drop for Known<T> {
    fn drop(self) {
        let Self { marker: _ } = self;
    }
}

// It owns nothing, so any thread may have it or share it.
unsafe impl<T> Send for Known<T> {}

unsafe impl<T> Sync for Known<T> {}

#[cfg(test)]
mod tests;
