//! The verdict on a drawn placement.

ghost use Rattle.std.specs.Prelude.{IfOk, MatchResult, length};
ghost use Rattle.fp_place.specs.Drawing.{places_in};
ghost use Rattle.fp_place.specs.Blocks.{KeepsOffBlocks};
ghost use Rattle.fp_place.specs.Breaks.{Judges, KeepsOff};
ghost use Rattle.fp_place.specs.FirstFaults.{IsFirstFault};

use crate::drawn::Drawn;
use crate::fault::Fault;
use crate::joining::join;
use crate::laying::lay;
use crate::placement::Placement;
use crate::settling::settle;
use crate::standing::stand;
use fp_base::{CellId, Die, NetId, NoMemory};
use fp_netlist::Problem;
use std::alloc::Global;

/// What breaks a rule.
#[derive(Clone, Copy, Debug, PartialEq, Eq)]
pub enum Subject {
    Cell(CellId),
    Net(NetId),
    Side(Die),
}

/// What a drawn placement is: legal, as a placement that has the drawn places and is in order; or the least rule that it breaks, with
/// its first subject in file order.
#[derive(Drop)]
pub enum Judged {
    Legal(Placement),
    Breaks { rule: u8, subject: Subject },
}

// The placement that a drawn placement is, or its first break.
fn judge(alloc: Global, problem: &Problem, drawn: &Drawn) -> Result<Placement, Fault>
    ensures judges { MatchResult result (λ placed. Judges problem.now drawn.now (Judged.Legal placed)) (IsFirstFault problem.now drawn.now (places_in drawn.now (length problem.now.cells))) }
    ensures blocks { IfOk result (λ _. KeepsOffBlocks problem.now drawn.now) }
{
    let standing = stand(alloc, problem, drawn)?;
    let lined = settle(alloc, problem, &standing.places, &standing.numbers)?;
    let centres = join(alloc, problem, drawn, &standing.places)?;
    let placement = lay(alloc, problem, lined, &standing.places, &centres)?;
    Ok(placement)
}

/// The verdict on a drawn placement, by the contest's nine rules:
/// 1 each cell stands exactly once, 2 on a segment of its die, 3 not higher than the die's rows, 4 no two cells of a die overlap,
/// 5 and 6 the top and the bottom die's cells keep its percent, 7 exactly the cut nets have a terminal, and one, 8 terminals keep
/// their distance from the edges, 9 and from each other. A break of rule 4 or 9 is told at the first cell or net that is too close to
/// some other. Segments are the pieces of rows that no blockage covers, so a cell that overlaps a blockage of its die breaks rule 2, or
/// rule 3 where it is higher than its row: no cell of a legal drawing does.
pub fn verdict(alloc: Global, problem: &Problem, drawn: &Drawn) -> Result<Judged, NoMemory>
    ensures judges { IfOk result (Judges problem.now drawn.now) }
    ensures blocks { IfOk result (KeepsOff problem.now drawn.now) }
{
    match judge(alloc, problem, drawn) {
        Ok(placement) => Ok(Judged::Legal(placement)),
        Err(Fault::Breaks { rule, subject }) => Ok(Judged::Breaks { rule, subject }),
        Err(Fault::Memory) => Err(NoMemory),
    }
}
