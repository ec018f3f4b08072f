//! The two dies: their frame, their rows, and the terminal that joins them.

ghost use Rattle.std.specs.Prelude.{◌≡◌, ◌≤◌};
ghost use Rattle.fp_tech.specs.Plan.{Plan, spec_of, segments, IsSetup, IsPlan, AreGreatest, Makes};

use crate::book::TechBook;
use crate::cutting::cut_rows;
use crate::rows::rows_lie;
use fp_base::{Die, Side, TechId};
use std::alloc::{AllocError, Global};
use std::marker::Model;
use thiserror::Error;

/// The rectangle of both dies, by its lower left and its upper right corner, in the input's units up to 2^30.
#[derive(Clone, Copy, Debug, PartialEq, Eq)]
pub struct Frame {
    pub llx: u32,
    pub lly: u32,
    pub urx: u32,
    pub ury: u32,
}

/// One die: the percent of its area that cells may take (0 to 100), its technology, and its rows, which are
/// stacked upwards from the start by the row height, `repeat` of them (1 to 2^16).
#[derive(Clone, Copy, Debug, PartialEq, Eq)]
pub struct DieSpec {
    pub percent: u32,
    pub tech: TechId,
    pub start_x: u32,
    pub start_y: u32,
    pub length: u32,
    pub height: u32,
    pub repeat: u32,
}

/// A terminal's size on each axis (1 to 2^30), the least spacing of two terminals and to the edges, and what each
/// terminal adds to the score (both up to 2^30). The cost is our own addition to the contest's statement.
#[derive(Clone, Copy, Debug, PartialEq, Eq)]
pub struct TermSpec {
    pub size_x: u32,
    pub size_y: u32,
    pub spacing: u32,
    pub cost: u32,
}

/// A blockage: a rectangle of one die where no cell may stand, by its lower left and its upper right corner, up to 2^30.
/// It may lie outside the frame, partly or wholly, and blockages may overlap. Blockages are our own addition to the
/// contest's statement.
#[derive(Clone, Copy, Debug, PartialEq, Eq)]
pub struct Block {
    pub die: Die,
    pub llx: u32,
    pub lly: u32,
    pub urx: u32,
    pub ury: u32,
}

/// A piece of a row that no blockage covers: cells stand on its y, from `start` over `length`, which is at least 1.
#[derive(Clone, Copy, Debug, PartialEq, Eq)]
pub struct Segment {
    pub y: i64,
    pub start: i64,
    pub length: i64,
}

/// Why dies could not be made.
#[derive(Clone, Copy, Debug, PartialEq, Eq, Error)]
pub enum DiesFault {
    /// The rows of this die leave the frame; the top die is tried first.
    #[error("the rows of the die {0:?} leave the frame")]
    RowsOutside(Die),
    /// This die has more than 2^16 segments; the top die is tried first.
    #[error("the die {0:?} has too many segments")]
    TooMany(Die),
    /// Memory was asked for and refused.
    #[error("out of memory")]
    Memory,
}

impl From<AllocError> for DiesFault {
    ghost use Rattle.fp_tech.specs.declared.dies.DiesFault.TheVariants.{Memory};

    ghost from_gives = { λ _ fault. fault ≡ Memory };

    fn from(_error: AllocError) -> DiesFault {
        DiesFault::Memory
    }
}

/// The two dies with their technologies, in one frame and with one kind of terminal, their blockages, and the segments
/// into which these cut their rows.
#[derive(Drop)]
pub struct Dies {
    book: TechBook,
    frame: Frame,
    top: DieSpec,
    bottom: DieSpec,
    terminal: TermSpec,
    blocks: Vec<Block>,
    top_segments: Vec<Segment>,
    bottom_segments: Vec<Segment>,
}

impl Model for Dies {
    ghost use Rattle.fp_tech.specs.Plan.{Plan};

    ghost Value = { Plan };

    ghost use Rattle.fp_tech.specs.KeptDies.{plan_of, IsKeptPlan};

    ghost view = { plan_of };

    ghost invariant = { IsKeptPlan };
}

impl Dies {
    /// Dies of a book, a frame, the specification of each die, a terminal and at most 1,024 blockages, all within the
    /// input's ranges, and the dies' technologies in the book. `RowsOutside` exactly where a die's rows leave the frame,
    /// the top die first; else `TooMany` exactly where a die has more than 2^16 segments, the top die first. A refusal
    /// drops the book.
    pub fn new(
        alloc: Global,
        book: TechBook,
        frame: Frame,
        top: DieSpec,
        bottom: DieSpec,
        terminal: TermSpec,
        blocks: &[Block],
    ) -> Result<Dies, DiesFault>
        requires { IsSetup (record { book = book; frame = frame; top = top; bottom = bottom; terminal = terminal; blocks = blocks.now }) }
        ensures { Makes (record { book = book; frame = frame; top = top; bottom = bottom; terminal = terminal; blocks = blocks.now }) result }
    {
        if !rows_lie(frame, top) {
            return Err(DiesFault::RowsOutside(Die::Top));
        }
        if !rows_lie(frame, bottom) {
            return Err(DiesFault::RowsOutside(Die::Bottom));
        }
        let top_segments = cut_rows(alloc, Die::Top, top, blocks)?;
        let bottom_segments = cut_rows(alloc, Die::Bottom, bottom, blocks)?;
        let blocks = Vec::from_slice(alloc, blocks)?;
        Ok(Dies {
            book,
            frame,
            top,
            bottom,
            terminal,
            blocks,
            top_segments,
            bottom_segments,
        })
    }

    /// The technologies.
    pub fn book(&self) -> &TechBook
        ensures book { result.now ≡ self.now.book }
        ensures plan { IsPlan self.now }
    {
        &self.book
    }

    /// The frame of both dies.
    pub fn frame(&self) -> Frame
        ensures frame { result ≡ self.now.frame }
        ensures plan { IsPlan self.now }
    {
        self.frame
    }

    /// A die as it was given.
    pub fn spec(&self, die: Die) -> DieSpec
        ensures spec { result ≡ spec_of self.now die }
        ensures plan { IsPlan self.now }
    {
        match die {
            Die::Top => self.top,
            Die::Bottom => self.bottom,
        }
    }

    /// The terminal.
    pub fn terminal(&self) -> TermSpec
        ensures terminal { result ≡ self.now.terminal }
        ensures plan { IsPlan self.now }
    {
        self.terminal
    }

    /// The blockages, in the order in which they were given.
    pub fn blocks(&self) -> &[Block]
        ensures blocks { result.now ≡ self.now.blocks }
        ensures plan { IsPlan self.now }
    {
        self.blocks.as_slice()
    }

    /// The segments of the die that a type stands for.
    pub fn segments<S: Side>(&self) -> &[Segment]
        ensures segments { result.now ≡ segments self.now S.DIE }
        ensures greatest { AreGreatest self.now S.DIE result.now }
        ensures plan { IsPlan self.now }
    {
        self.segments_of(S::DIE)
    }

    /// The segments of a die: the greatest pieces of its rows that no blockage of the die covers, numbered from 0, row by
    /// row upwards and in a row from the left. Without blockages each is a row.
    pub fn segments_of(&self, die: Die) -> &[Segment]
        ensures segments { result.now ≡ segments self.now die }
        ensures greatest { AreGreatest self.now die result.now }
        ensures plan { IsPlan self.now }
    {
        match die {
            Die::Top => self.top_segments.as_slice(),
            Die::Bottom => self.bottom_segments.as_slice(),
        }
    }
}
