//! What a proof remembers of a value.
ghost use Rattle.std.specs.Prelude.{◌≡◌};
ghost use base.Fml.{ftrue};

use std::marker::{Model, PhantomData};

/// A `T` as clauses saw it at one moment. It has no bytes, and any thread may have it, whatever `T` is, also inside a
/// struct with a model. So a value in a hall can hold what its history began from.
pub struct Told<T> {
    marker: PhantomData<T>,
    pub ghost value: { T },
}

impl<T> Model for Told<T> {
    ghost also_owns = { λ _. ftrue };
}

impl<T> Told<T> {
    /// What the reference shows now.
    pub fn of(value: &T) -> Told<T>
        ensures { result.value ≡ value.now }
    {
        let _ = value;
        Told {
            marker: PhantomData,
        }
    }
}

unsafe impl<T> Send for Told<T> {}

unsafe impl<T> Sync for Told<T> {}

impl<T> Drop for Told<T> {
    fn drop(self) {
        let Self { marker: _ } = self;
    }
}
