//! A trial: what it shows of its segments and of its cut nets, and how it ended.

ghost use Rattle.std.specs.Prelude.{◌≡◌, [], MatchResult};
ghost use Rattle.fp_cert.specs.Shown.{rows_of, trial_without, with_row, with_cut, with_top};

use crate::shown::{CutShown, Ending, RowShown};
use fp_base::{CellId, Die, NoMemory};
use std::alloc::Global;
use std::marker::Model;

/// A trial. One that ended as `NoRow` shows the cells of its top die alone: it has no segments and no cut nets, and its score is 0. Every
/// other one shows each segment of both dies and each cut net, and no cells of the top die.
#[derive(Drop)]
pub struct Trial {
    ending: Ending,
    top: Vec<RowShown>,
    bottom: Vec<RowShown>,
    cuts: Vec<CutShown>,
    score: u64,
    top_cells: Vec<CellId>,
}

impl Model for Trial {
    ghost use Rattle.fp_cert.specs.Shown.{ShownTrial};

    ghost Value = { ShownTrial };

    ghost view = { λ t. record { ending = t.ending; top = t.top.items; bottom = t.bottom.items; cuts = t.cuts.items; score = t.score; top_cells = t.top_cells.items } };
}

impl Trial {
    /// A trial with this ending and score, and empty lists. It takes no memory.
    pub fn new(alloc: Global, ending: Ending, score: u64) -> Trial
        ensures { result ≡ trial_without ending score }
    {
        Trial {
            ending,
            top: Vec::new(alloc),
            bottom: Vec::new(alloc),
            cuts: Vec::new(alloc),
            score,
            top_cells: Vec::new(alloc),
        }
    }

    /// How it ended.
    pub fn ending(&self) -> Ending
        ensures { result ≡ self.now.ending }
    {
        self.ending
    }

    /// The segments of a die, by their numbers.
    pub fn rows(&self, die: Die) -> &[RowShown]
        ensures { result.now ≡ rows_of self.now die }
    {
        match die {
            Die::Top => self.top.as_slice(),
            Die::Bottom => self.bottom.as_slice(),
        }
    }

    /// The cut nets.
    pub fn cuts(&self) -> &[CutShown]
        ensures { result.now ≡ self.now.cuts }
    {
        self.cuts.as_slice()
    }

    /// The score.
    pub fn score(&self) -> u64
        ensures { result ≡ self.now.score }
    {
        self.score
    }

    /// The cells of the top die, of a trial without a row.
    pub fn top_cells(&self) -> &[CellId]
        ensures { result.now ≡ self.now.top_cells }
    {
        self.top_cells.as_slice()
    }

    /// Changes how it ended and its score alone: both are known once its lists are full.
    pub fn end(&mut self, ending: Ending, score: u64)
        ensures { self.new ≡ record self.old { ending = ending; score = score } }
    {
        self.ending = ending;
        self.score = score;
    }

    /// Adds a segment of a die behind the others. Without memory nothing changes, and the segment is dropped.
    pub fn push_row(&mut self, die: Die, row: RowShown) -> Result<(), NoMemory>
        ensures { MatchResult result (λ _. self.new ≡ with_row self.old die row) (λ _. self.new ≡ self.old) }
    {
        match die {
            Die::Top => self.top.push(row)?,
            Die::Bottom => self.bottom.push(row)?,
        }
        Ok(())
    }

    /// Adds a cut net behind the others. Without memory nothing changes.
    pub fn push_cut(&mut self, cut: CutShown) -> Result<(), NoMemory>
        ensures { MatchResult result (λ _. self.new ≡ with_cut self.old cut) (λ _. self.new ≡ self.old) }
    {
        self.cuts.push(cut)?;
        Ok(())
    }

    /// Adds a cell of the top die behind the others. Without memory nothing changes.
    pub fn push_top(&mut self, cell: CellId) -> Result<(), NoMemory>
        ensures { MatchResult result (λ _. self.new ≡ with_top self.old cell) (λ _. self.new ≡ self.old) }
    {
        self.top_cells.push(cell)?;
        Ok(())
    }
}
