//! The seed: of two first fits the one that stands.

ghost use Rattle.std.specs.Prelude.{◌≡◌, ◌≤◌, Err, IfOk};
ghost use Rattle.fp_base.specs.declared.ids.Die.TheVariants as dies;
ghost use Rattle.fp_tech.specs.Slots.{Slots, slot_count, IsGrid};
ghost use Rattle.fp_place.specs.Blocks.{KeepsOffBlocks};
ghost use Rattle.fp_place.specs.Cut.{cut};
ghost use Rattle.fp_place.specs.Legal.{IsLegal};
ghost use Rattle.fp_place.specs.Places.{dies_of};
ghost use Rattle.fp_place.specs.Placed.{drawn_of, places_of, DoAgree, IsInOrder, IsPlacementOf};
ghost use Rattle.fp_place.specs.Settled.{KeepRules};
ghost use Rattle.fp_score.specs.FirstFit.{first_fit};
ghost use Rattle.fp_place.specs.OnSlots.{AreOnCuts};
ghost use Rattle.fp_seed.specs.Seeded.{SeedGives};

use crate::fit::{Fit, fit_with};
use fp_base::{Die, NoMemory};
use fp_netlist::Problem;
use fp_place::Placement;
use fp_score::Stop;
use fp_tech::Grid;
use std::alloc::Global;

/// A seed: the die whose segments each cell tried first, and the placement.
#[derive(Drop)]
pub struct Seeded {
    pub first: Die,
    pub placement: Placement,
}

/// Why there is no seed.
#[derive(Clone, Copy, Debug, PartialEq, Eq)]
pub enum SeedFault {
    /// Neither first fit stands: why each of them stops.
    Unfit { top_first: Stop, bottom_first: Stop },
    /// Memory was asked for and refused.
    Memory,
}

impl From<NoMemory> for SeedFault {
    ghost use Rattle.std.specs.Prelude.{◌≡◌};
    ghost use Rattle.fp_seed.specs.declared.seeding.SeedFault.TheVariants.{Memory};

    ghost from_gives = { λ _ fault. fault ≡ Memory };

    fn from(_error: NoMemory) -> SeedFault {
        SeedFault::Memory
    }
}

/// The seed of a problem: the first fit with the top die first, or, where that stops, the one with the bottom die first. Cells go in file
/// order, each to the first segment that has room for it, and the k-th cut net, counted from 0, takes slot k: our own rule. The placement is
/// legal by the contest's rules, and no cell overlaps a blockage of its die. `Unfit` exactly where both first fits stop, and then for want of
/// room or of slots, each told.
pub fn seed(alloc: Global, problem: &Problem) -> Result<Seeded, SeedFault>
    ensures seed { SeedGives problem.now result }
    ensures legal { IfOk result (λ s. IsLegal problem.now (drawn_of s.placement)) }
    ensures in_order { IfOk result (λ s. IsInOrder problem.now s.placement) }
    ensures of_problem { IfOk result (λ s. IsPlacementOf problem.now s.placement) }
    ensures on_cuts { IfOk result (λ s. AreOnCuts problem.now (dies_of (places_of s.placement)) s.placement.terminals) }
    ensures rules { IfOk result (λ s. KeepRules problem.now (dies_of (places_of s.placement))) }
    ensures slots { IfOk result (λ s. (grid : Slots) → IsGrid problem.now.plan.frame problem.now.plan.terminal grid
        → cut problem.now (dies_of (places_of s.placement)) ≤ slot_count grid) }
    ensures blocks { IfOk result (λ s. KeepsOffBlocks problem.now (drawn_of s.placement)) }
    ensures agree { IfOk result (λ s. DoAgree s.placement) }
{
    let grid = Grid::of(problem.dies());
    match fit_with(alloc, problem, &grid, Die::Top)? {
        Fit::Stands(placement) => Ok(Seeded {
            first: Die::Top,
            placement,
        }),
        Fit::Stops(top_first) => bottom_first(alloc, problem, &grid, top_first),
    }
}

// The seed where the first fit with the top die first stops.
fn bottom_first(
    alloc: Global,
    problem: &Problem,
    grid: &Grid,
    top_first: Stop,
) -> Result<Seeded, SeedFault>
    requires grid { IsGrid problem.now.plan.frame problem.now.plan.terminal grid.now }
    requires stops { first_fit problem.now (slot_count grid.now) dies.Top ≡ Err top_first }
    ensures seed { SeedGives problem.now result }
    ensures legal { IfOk result (λ s. IsLegal problem.now (drawn_of s.placement)) }
    ensures in_order { IfOk result (λ s. IsInOrder problem.now s.placement) }
    ensures of_problem { IfOk result (λ s. IsPlacementOf problem.now s.placement) }
    ensures on_cuts { IfOk result (λ s. AreOnCuts problem.now (dies_of (places_of s.placement)) s.placement.terminals) }
    ensures rules { IfOk result (λ s. KeepRules problem.now (dies_of (places_of s.placement))) }
    ensures slots { IfOk result (λ s. (grid : Slots) → IsGrid problem.now.plan.frame problem.now.plan.terminal grid
        → cut problem.now (dies_of (places_of s.placement)) ≤ slot_count grid) }
    ensures blocks { IfOk result (λ s. KeepsOffBlocks problem.now (drawn_of s.placement)) }
    ensures agree { IfOk result (λ s. DoAgree s.placement) }
{
    match fit_with(alloc, problem, grid, Die::Bottom)? {
        Fit::Stands(placement) => Ok(Seeded {
            first: Die::Bottom,
            placement,
        }),
        Fit::Stops(bottom_first) => Err(SeedFault::Unfit {
            top_first,
            bottom_first,
        }),
    }
}
