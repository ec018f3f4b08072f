//! The layout of chosen rows: each cell where its row costs the least.

ghost use Rattle.std.specs.Prelude.{◌≡◌, [], All, IfOk, length, map};
ghost use Rattle.fp_base.specs.declared.ids.Die.TheVariants as sides;
ghost use Rattle.fp_tech.specs.Plan.{segments};
ghost use Rattle.fp_place.specs.Placed.{StandOnce};
ghost use Rattle.fp_coarse.specs.Targets.{IsNearTarget};
ghost use Rattle.fp_cert.specs.Standing.{spots_shown};
ghost use Rattle.fp_flow.specs.Lanes.{CanPlaceAll, AddsBestRows};
ghost use Rattle.fp_flow.specs.Steps.{IsLaidFrom, AddsBoth};

use crate::lanes::place_lanes;
use crate::rows::RowScratch;
use fp_base::{Bottom, NoMemory, Point, Top};
use fp_cert::{Ending, Trial, xs_of};
use fp_netlist::Problem;
use fp_place::{Lanes, Placement};
use std::alloc::Global;

/// A trial of which the rows are placed and the terminals are not, and the placement that it shows.
#[derive(Drop)]
pub struct Laid {
    pub trial: Trial,
    pub placement: Placement,
}

/// Places the cells of the lanes of both dies, in which each cell stands once, each row where it costs the least.
pub fn lay(
    alloc: Global,
    problem: &Problem,
    targets: &[Point],
    top: Lanes<Top>,
    bottom: Lanes<Bottom>,
    scratch: &mut RowScratch,
) -> Result<Laid, NoMemory>
    requires targets { length targets.now ≡ length problem.now.cells }
    requires near { All IsNearTarget targets.now }
    requires once { StandOnce (length problem.now.cells) top bottom }
    requires top_lanes { length top ≡ length (segments problem.now.plan sides.Top) }
    requires bottom_lanes { length bottom ≡ length (segments problem.now.plan sides.Bottom) }
    requires top_rows { CanPlaceAll problem.now sides.Top targets.now top }
    requires bottom_rows { CanPlaceAll problem.now sides.Bottom targets.now bottom }
    ensures { IfOk result (λ laid. IsLaidFrom problem.now top bottom targets.now laid.trial laid.placement) }
{
    let _cells = problem.cells();
    let mut trial = Trial::new(alloc, Ending::Better, 0);
    let xs = place_both(alloc, problem, targets, &top, &bottom, scratch, &mut trial)?;
    let placement = Placement::build(alloc, problem, top, bottom, &xs);
    drop(xs);
    Ok(Laid {
        trial,
        placement: placement?,
    })
}

/// Shows the rows of both dies in a trial without rows, and tells the x of each cell.
fn place_both(
    alloc: Global,
    problem: &Problem,
    targets: &[Point],
    top: &Lanes<Top>,
    bottom: &Lanes<Bottom>,
    scratch: &mut RowScratch,
    trial: &mut Trial,
) -> Result<Vec<i64>, NoMemory>
    requires targets { length targets.now ≡ length problem.now.cells }
    requires once { StandOnce (length problem.now.cells) top.now bottom.now }
    requires top_lanes { length top.now ≡ length (segments problem.now.plan sides.Top) }
    requires bottom_lanes { length bottom.now ≡ length (segments problem.now.plan sides.Bottom) }
    requires top_rows { CanPlaceAll problem.now sides.Top targets.now top.now }
    requires bottom_rows { CanPlaceAll problem.now sides.Bottom targets.now bottom.now }
    requires no_top { trial.old.top ≡ [] }
    requires no_bottom { trial.old.bottom ≡ [] }
    ensures rows { IfOk result (λ _. AddsBoth problem.now targets.now top.now bottom.now trial.old trial.new) }
    ensures xs { IfOk result (λ xs. xs.items ≡ map (λ spot. spot.x) (spots_shown problem.now trial.new)) }
{
    place_lanes(alloc, problem, top, targets, scratch, trial)?;
    place_lanes(alloc, problem, bottom, targets, scratch, trial)?;
    xs_of(alloc, problem, trial)
}
