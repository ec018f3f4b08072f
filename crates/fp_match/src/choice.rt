//! A column for each row, no two of them the same.

ghost use Rattle.std.specs.Prelude.{◌≡◌, ◌<◌, All, IfOk, IfErr, OnOk, length};
ghost use Rattle.fp_match.specs.Prices.{AreDistinctBelow};
ghost use Rattle.fp_match.specs.Clashes.{IsRefused};
ghost use Rattle.fp_match.specs.Owners.{Agree};

use std::alloc::{AllocError, Global};
use std::marker::Model;

/// The owner of a column that no row has.
pub(crate) const UNUSED: u32 = u32::MAX;

/// Why a list is no choice.
#[derive(Clone, Copy, Debug, PartialEq, Eq)]
pub enum ChoiceFault {
    /// Two rows have one column. `second` is the least row whose column an earlier row has, and
    /// `first` is that earlier row.
    Same { first: u32, second: u32 },
    /// Memory was asked for and refused.
    Memory,
}

impl From<AllocError> for ChoiceFault {
    ghost use Rattle.fp_match.specs.declared.choice.ChoiceFault.TheVariants.{Memory};

    ghost from_gives = { λ _ fault. fault ≡ Memory };

    fn from(_error: AllocError) -> ChoiceFault {
        ChoiceFault::Memory
    }
}

/// A column for each row, no two of them the same.
#[derive(Drop)]
pub struct Choice {
    /// The column of each row.
    pub(crate) chosen: Vec<u32>,
    /// The row of each column, or `UNUSED`.
    pub(crate) owner: Vec<u32>,
}

impl Model for Choice {
    ghost use Rattle.fp_match.specs.Prices.{Chosen};

    ghost Value = { Chosen };

    ghost use Rattle.fp_match.specs.Chosen.{chosen_of, IsKept};

    ghost view = { chosen_of };

    ghost invariant = { IsKept };
}

impl Choice {
    ghost use Rattle.fp_match.specs.Prices.{Chosen};

    /// The choice that gives row n the n-th column of the list, each below `columns`. It answers
    /// `Same` exactly where two rows have one column.
    pub fn new(alloc: Global, columns: u32, chosen: &[u32]) -> Result<Choice, ChoiceFault>
        requires { All (λ s. s < columns) chosen.now }
        ensures value { IfOk result (λ choice. choice ≡ record { columns = columns; chosen = chosen.now }) }
        ensures distinct { OnOk result (AreDistinctBelow (length chosen.now) chosen.now) }
        ensures refused { IfErr result (IsRefused chosen.now) }
    {
        let owner = owners(alloc, columns, chosen)?;
        let chosen = chosen.to_vec(alloc)?;
        Ok(Choice { chosen, owner })
    }
}

/// The row of each column, or the first clash.
fn owners(alloc: Global, columns: u32, chosen: &[u32]) -> Result<Vec<u32>, ChoiceFault>
    requires { All (λ s. s < columns) chosen.now }
    ensures sized { IfOk result (λ owner. length owner.items ≡ columns) }
    ensures owners { IfOk result (λ owner. Agree columns (length chosen.now) chosen.now owner.items) }
    ensures refused { IfErr result (IsRefused chosen.now) }
{
    let mut owner = vec![in alloc; UNUSED; columns as usize]?;
    for (row, column) in chosen.iter().enumerate() {
        let place = *column as usize;
        let holder = owner[place];
        if holder != UNUSED {
            return Err(ChoiceFault::Same {
                first: holder,
                second: row as u32,
            });
        }
        owner[place] = row as u32;
    }
    Ok(owner)
}
