//! Names in the order of adding, which are found by hashing.

ghost use Rattle.std.specs.Prelude.{◌≡◌, ◌+◌, ◌<◌, ◌++◌, ◌∷◌, [], None, length, not, take, slice_get, Some, unwrap_or, IfOk, IfSome, OnOk, OnErr};
ghost use Rattle.fp_tech.specs.Book.{place_of, is_among, with_name};

use indexmap::IndexSet;
use std::alloc::{AllocError, Global};
use std::marker::Model;

/// Names of one kind, numbered from 0 in the order of adding, and found by hashing.
#[derive(Drop)]
pub struct Names {
    set: IndexSet<Vec<u8>>,
}

impl Model for Names {
    ghost use Rattle.std.specs.Prelude.{List, ℕ, map};

    ghost Value = { List (List ℕ) };

    ghost view = { λ n. map (λ name. name.items) n.set.keys };
}

impl Names {
    /// No names, which takes no memory.
    pub fn new(alloc: Global) -> Names
        ensures { result ≡ [] }
    {
        Names {
            set: IndexSet::new(alloc),
        }
    }

    /// The number of names.
    pub fn len(&self) -> usize
        ensures { result ≡ length self.now }
    {
        self.set.len()
    }

    /// The name of that number.
    pub fn name(&self, place: usize) -> &[u8]
        requires { place < length self.now }
        ensures { slice_get self.now place ≡ Some result.now }
    {
        self.set.as_slice()[place].as_slice()
    }

    /// The number of a name, or None exactly where it is not there.
    pub fn place(&self, name: &[u8]) -> Option<usize>
        ensures place { result ≡ place_of name.now self.now }
        ensures within { IfSome result (λ p. p < length self.now) }
    {
        self.set.get_index_of(name)
    }

    /// Adds a name that is not there. Where memory is wanting the names stay as they were.
    pub fn push(&mut self, alloc: Global, name: &[u8]) -> Result<(), AllocError>
        requires { place_of name.now self.old ≡ None }
        ensures ok { OnOk result (self.new ≡ self.old ++ name.now ∷ []) }
        ensures err { OnErr result (self.new ≡ self.old) }
    {
        let name = Vec::from_slice(alloc, name)?;
        self.set.insert(name)?;
        Ok(())
    }

    /// Adds a name where it is not there, and answers whether it is new. Where memory is wanting the names stay as they
    /// were.
    pub fn add(&mut self, alloc: Global, name: &[u8]) -> Result<bool, AllocError>
        ensures new { IfOk result (λ new. new ≡ not (is_among name.now self.old)) }
        ensures ok { OnOk result (self.new ≡ with_name self.old name.now) }
        ensures err { OnErr result (self.new ≡ self.old) }
    {
        let name = Vec::from_slice(alloc, name)?;
        let new = self.set.insert(name)?;
        Ok(new)
    }

    /// The number of a name, which is added where it is not there. Where memory is wanting the names
    /// stay as they were.
    pub fn place_or_push(&mut self, alloc: Global, name: &[u8]) -> Result<usize, AllocError>
        ensures place { IfOk result (λ p. p ≡ unwrap_or (place_of name.now self.old) (length self.old)) }
        ensures ok { OnOk result (self.new ≡ with_name self.old name.now) }
        ensures err { OnErr result (self.new ≡ self.old) }
    {
        match self.place(name) {
            Some(place) => Ok(place),
            None => {
                let place = self.len();
                self.push(alloc, name)?;
                Ok(place)
            }
        }
    }

    /// Keeps the first `len` names.
    pub fn truncate(&mut self, len: usize)
        ensures { self.new ≡ take len self.old }
    {
        self.set.truncate(len);
    }
}
