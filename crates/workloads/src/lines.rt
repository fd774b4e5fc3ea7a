//! A list that grows at its end.
ghost use Rattle.std.specs.Prelude.{◌≡◌, [], ◌∷◌, ◌++◌, OnOk, OnErr};

use std::alloc::{AllocError, Global};
use std::marker::Model;

/// What an actor runs, or is answered, line by line. Contracts see it as a list.
#[derive(Drop)]
pub struct Lines<T> {
    items: Vec<T>,
}

impl<T> Model for Lines<T> {
    ghost use Rattle.std.specs.Prelude.{List};

    ghost Value = { List T };

    ghost view = { λ l. l.items.items };
}

impl<T: Drop> Lines<T> {
    /// No line yet.
    pub fn new(alloc: Global) -> Lines<T>
        ensures { result ≡ [] }
    {
        Lines {
            items: Vec::new(alloc),
        }
    }

    /// These lines.
    pub(crate) fn of(items: Vec<T>) -> Lines<T>
        ensures { result ≡ items.items }
    {
        Lines { items }
    }

    /// One line more, or as before.
    pub fn push(&mut self, item: T) -> Result<(), AllocError>
        ensures more { OnOk result (self.new ≡ self.old ++ item ∷ []) }
        ensures same { OnErr result (self.new ≡ self.old) }
    {
        self.items.push(item)?;
        Ok(())
    }

    /// The lines.
    pub fn as_slice(&self) -> &[T]
        ensures { result.now ≡ self.now }
    {
        self.items.as_slice()
    }
}
