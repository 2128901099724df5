//! Lists that contracts see by their elements alone.
ghost use Rattle.std.specs.Prelude.{◌≡◌, List};

use std::marker::Model;

/// A `Vec` that contracts see as the list of its elements, whatever its capacity.
#[derive(Debug, Drop)]
pub struct Seq<T> {
    elements: Vec<T>,
}

impl<T> Model for Seq<T> {
    ghost Value = { List T };

    ghost view = { λ s. s.elements.items };
}

impl<T> Seq<T> {
    /// Takes the elements over; no memory is taken.
    pub fn from_vec(v: Vec<T>) -> Seq<T>
        ensures { result ≡ v.items }
    {
        Seq { elements: v }
    }

    /// The elements in order.
    pub fn as_slice(&self) -> &[T]
        ensures { result.now ≡ self.now }
    {
        self.elements.as_slice()
    }

    /// Gives the elements back; no memory is taken.
    pub fn into_vec(self) -> Vec<T>
        ensures { result.items ≡ self }
    {
        self.elements
    }
}
