//! The rows of a trial, die by die.

ghost use Rattle.std.specs.Prelude.{◌≡◌, OnOk, length};
ghost use Rattle.fp_tech.specs.Plan.{segments};
ghost use Rattle.fp_flow.specs.Lanes.{CanPlaceAll, AddsBestRows};

use crate::rows::{RowScratch, place_lane};
use fp_base::{NoMemory, Point, SegId, Side};
use fp_cert::Trial;
use fp_netlist::Problem;
use fp_place::Lanes;
use std::alloc::Global;

/// Places the cells of each lane of a die where they cost the least, and shows them in a trial.
pub fn place_lanes<S: Side>(
    alloc: Global,
    problem: &Problem,
    lanes: &Lanes<S>,
    targets: &[Point],
    scratch: &mut RowScratch,
    trial: &mut Trial,
) -> Result<(), NoMemory>
    requires lanes { length lanes.now ≡ length (segments problem.now.plan S.DIE) }
    requires targets { length targets.now ≡ length problem.now.cells }
    requires rows { CanPlaceAll problem.now S.DIE targets.now lanes.now }
    ensures { OnOk result (AddsBestRows problem.now S.DIE lanes.now (length lanes.now) targets.now trial.old trial.new) }
{
    let segments = problem.dies().segments::<S>();
    for (number, segment) in segments.iter().enumerate() {
        let lane = lanes.lane(SegId::new(number as u32));
        place_lane(
            alloc,
            problem,
            S::DIE,
            segment,
            lane,
            targets,
            scratch,
            trial,
        )?;
    }
    Ok(())
}
