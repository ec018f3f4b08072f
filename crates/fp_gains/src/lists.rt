//! Lists of numbers in one flat list.

ghost use Rattle.std.specs.Prelude.{◌≡◌, ◌+◌, ◌<◌, ◌≤◌, ◌∷◌, ◌++◌, [], IfOk, OnOk, length, slice_index};
ghost use Rattle.std.specs.List.{slice_range};
ghost use Rattle.fp_gains.specs.Lists.{list_at};

use std::alloc::{AllocError, Global};
use std::marker::Model;

/// Lists of numbers that follow one another: list k begins at `starts[k]` and ends at `starts[k + 1]`.
#[derive(Drop)]
pub struct Lists {
    starts: Vec<usize>,
    items: Vec<u32>,
}

impl Model for Lists {
    ghost use Rattle.std.specs.Prelude.{ℕ, List, length};
    ghost use Rattle.fp_gains.specs.Lists.{parts, AreStarts};

    ghost Value = { List (List ℕ) };

    ghost view = { λ l. parts l.starts.items l.items.items };

    ghost invariant = { λ l. AreStarts l.starts.items (length l.items.items) };
}

impl Lists {
    /// No list.
    pub fn new(alloc: Global) -> Result<Lists, AllocError>
        ensures { IfOk result (λ lists. lists ≡ []) }
    {
        let starts = vec![in alloc; 0; 1]?;
        let items = Vec::new(alloc);
        Ok(Lists { starts, items })
    }

    /// One list more.
    pub fn push(&mut self, list: &[u32]) -> Result<(), AllocError>
        ensures { OnOk result (self.new ≡ self.old ++ list.now ∷ []) }
    {
        self.starts.reserve(1)?;
        self.items.extend_from_slice(list)?;
        self.starts.push(self.items.len())?;
        Ok(())
    }

    /// The number of lists.
    pub fn len(&self) -> usize
        ensures { result ≡ length self.now }
    {
        self.starts.len() - 1
    }

    /// A list.
    pub fn list(&self, number: usize) -> &[u32]
        requires { number < length self.now }
        ensures { result.now ≡ list_at self.now number }
    {
        part(&self.starts, &self.items, number)
    }
}

// One of the parts of a list that begin at these places.
fn part<'a>(starts: &[usize], items: &'a [u32], number: usize) -> &'a [u32]
    requires there { number + 1 < length starts.now }
    requires rises { slice_index starts.now number ≤ slice_index starts.now (number + 1) }
    requires within { slice_index starts.now (number + 1) ≤ length items.now }
    ensures { result.now ≡ slice_range items.now (slice_index starts.now number) (slice_index starts.now (number + 1)) }
{
    &items[starts[number]..starts[number + 1]]
}
