//! A drawn placement: the lines of an output file.

ghost use Rattle.std.specs.Prelude.{◌≡◌, MatchResult};
ghost use Rattle.fp_place.specs.Drawing.{empty, cells_on, with_cell, with_terminal, IsCoordinate, IsInRange};

use fp_base::{CellId, Die, NetId, NoMemory};
use std::alloc::Global;
use std::marker::Model;

/// A cell's line in the contest's output: its lower left corner, from 0 to 2^30 on each axis, the range of the input's numbers.
#[derive(Clone, Copy, Debug, PartialEq, Eq)]
pub struct DrawnCell {
    pub cell: CellId,
    pub x: i64,
    pub y: i64,
}

/// A terminal's line in the contest's output: its centre, from 0 to 2^30 on each axis.
#[derive(Clone, Copy, Debug, PartialEq, Eq)]
pub struct DrawnTerminal {
    pub net: NetId,
    pub x: i64,
    pub y: i64,
}

/// The lines of an output file, in its order: the cells of each die, and the terminals. Cells and nets may stand in it several times or
/// not at all: the contest's rules are asked of it later.
#[derive(Drop)]
pub struct Drawn {
    top: Vec<DrawnCell>,
    bottom: Vec<DrawnCell>,
    terminals: Vec<DrawnTerminal>,
}

impl Model for Drawn {
    ghost use Rattle.fp_place.specs.Drawing.{Drawing, IsInRange};
    ghost use Rattle.fp_place.specs.KeptDrawing.{drawing_kept};

    ghost Value = { Drawing };

    ghost view = { drawing_kept };

    ghost invariant = { λ d. IsInRange (drawing_kept d) };
}

impl Drawn {
    /// No lines, which takes no memory.
    pub fn new(alloc: Global) -> Drawn
        ensures { result ≡ empty }
    {
        Drawn {
            top: Vec::new(alloc),
            bottom: Vec::new(alloc),
            terminals: Vec::new(alloc),
        }
    }

    /// Adds a cell's line behind those of a die; its coordinates are from 0 to 2^30. Without memory nothing changes.
    pub fn push_cell(&mut self, die: Die, cell: DrawnCell) -> Result<(), NoMemory>
        requires x { IsCoordinate cell.x }
        requires y { IsCoordinate cell.y }
        ensures { MatchResult result (λ _. self.new ≡ with_cell self.old die cell) (λ _. self.new ≡ self.old) }
    {
        match die {
            Die::Top => self.top.push(cell)?,
            Die::Bottom => self.bottom.push(cell)?,
        }
        Ok(())
    }

    /// Adds a terminal's line behind the others; its coordinates are from 0 to 2^30. Without memory nothing changes.
    pub fn push_terminal(&mut self, terminal: DrawnTerminal) -> Result<(), NoMemory>
        requires x { IsCoordinate terminal.x }
        requires y { IsCoordinate terminal.y }
        ensures { MatchResult result (λ _. self.new ≡ with_terminal self.old terminal) (λ _. self.new ≡ self.old) }
    {
        self.terminals.push(terminal)?;
        Ok(())
    }

    /// The lines of a die's cells, in the order of adding.
    pub fn cells(&self, die: Die) -> &[DrawnCell]
        ensures lines { result.now ≡ cells_on self.now die }
        ensures range { IsInRange self.now }
    {
        match die {
            Die::Top => self.top.as_slice(),
            Die::Bottom => self.bottom.as_slice(),
        }
    }

    /// The lines of the terminals, in the order of adding.
    pub fn terminals(&self) -> &[DrawnTerminal]
        ensures lines { result.now ≡ self.now.terminals }
        ensures range { IsInRange self.now }
    {
        self.terminals.as_slice()
    }
}
