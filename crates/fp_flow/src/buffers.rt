//! What one trial after the other is made in.

ghost use Rattle.std.specs.Prelude.{◌≡◌, IfOk, length};
ghost use Rattle.fp_flow.specs.Buffers.{HaveRoom};

use crate::rows::RowScratch;
use fp_base::{Die, NoMemory};
use fp_match::Matcher;
use fp_netlist::Problem;
use fp_place::cut;
use fp_tech::Grid;
use std::alloc::Global;

/// Room for the assignment of cut nets to slots, and scratch for rows. It is taken once, for all trials of a problem.
#[derive(Drop)]
pub struct Buffers {
    pub matcher: Matcher,
    pub rows: RowScratch,
}

impl Buffers {
    /// Room for the cut nets of these dies over the slots of a grid.
    pub fn new(
        alloc: Global,
        problem: &Problem,
        grid: &Grid,
        dies: &[Die],
    ) -> Result<Buffers, NoMemory>
        requires { length dies.now ≡ length problem.now.cells }
        ensures { IfOk result (HaveRoom problem.now grid.now dies.now) }
    {
        Ok(Buffers {
            matcher: Matcher::with_room(alloc, cut(problem, dies), grid.slots())?,
            rows: RowScratch::new(alloc),
        })
    }
}
