//! One first fit, as a placement.

ghost use Rattle.std.specs.Prelude.{◌≡◌, ◌≤◌, All, IfOk, None, length, map, replicate};
ghost use Rattle.fp_tech.specs.Slots.{slot_count, IsGrid};
ghost use Rattle.fp_place.specs.Cut.{cut};
ghost use Rattle.fp_score.specs.FirstFit.{fit_terminals, seat_dies};
ghost use Rattle.fp_netlist.specs.Netlist.{IsSound};
ghost use Rattle.fp_seed.specs.Fits.{Fits, IsLaid, IsOnDie};
ghost use Rattle.fp_seed.specs.Seats.{IsSeating};

use crate::seat::Seat;
use crate::seating::Seating;
use fp_base::{Die, NetId, NoMemory, SlotId};
use fp_netlist::Problem;
use fp_place::{Placement, cut, is_cut};
use fp_score::Stop;
use fp_tech::Grid;
use std::alloc::{AllocError, Global};

/// A first fit: its placement, or why it stops.
#[derive(Drop)]
pub enum Fit {
    Stands(Placement),
    Stops(Stop),
}

/// The first fit with a first die, over the problem's grid of slots.
pub fn fit_with(alloc: Global, problem: &Problem, grid: &Grid, first: Die) -> Result<Fit, NoMemory>
    requires { IsGrid problem.now.plan.frame problem.now.plan.terminal grid.now }
    ensures { IfOk result (Fits problem.now grid.now first) }
{
    let mut seating = Seating::new(alloc, problem)?;
    if let Some(cell) = seating.fill(problem, first)? {
        return Ok(Fit::Stops(Stop::NoRoom(cell)));
    }
    let dies = dies_of(alloc, &seating.seats)?;
    let cut = cut(problem, &dies);
    let slots = grid.slots();
    if cut > slots {
        return Ok(Fit::Stops(Stop::NoSlots { cut, slots }));
    }
    let mut placement = laid(alloc, problem, seating)?;
    set_terminals(problem, grid, &dies, &mut placement);
    Ok(Fit::Stands(placement))
}

// The die of each seat.
fn dies_of(alloc: Global, seats: &[Seat]) -> Result<Vec<Die>, AllocError>
    ensures { IfOk result (λ dies. dies.items ≡ seat_dies seats.now) }
{
    seats.iter().map(|seat| seat.die).collect(alloc)
}

// The x of each seat.
fn xs_of(alloc: Global, seats: &[Seat]) -> Result<Vec<i64>, AllocError>
    ensures { IfOk result (λ xs. xs.items ≡ map (λ seat. seat.x) seats.now) }
{
    seats.iter().map(|seat| seat.x).collect(alloc)
}

// The placement of the seats of all cells, without terminals.
fn laid(alloc: Global, problem: &Problem, seating: Seating) -> Result<Placement, NoMemory>
    requires seating { IsSeating problem.now seating }
    requires all { length seating.seats.items ≡ length problem.now.cells }
    requires range { All (IsOnDie problem.now) seating.seats.items }
    ensures { IfOk result (IsLaid problem.now seating.seats.items) }
{
    let xs = xs_of(alloc, &seating.seats)?;
    let top = seating.top.into_lanes();
    let bottom = seating.bottom.into_lanes();
    Placement::build(alloc, problem, top, bottom, &xs)
}

// Gives the k-th cut net, counted from 0 in file order, slot k.
fn set_terminals(problem: &Problem, grid: &Grid, dies: &[Die], placement: &mut Placement)
    requires cells { length dies.now ≡ length problem.now.cells }
    requires slots { cut problem.now dies.now ≤ slot_count grid.now }
    requires bare { placement.old.terminals ≡ replicate (length problem.now.nets) None }
    ensures { placement.new ≡ record placement.old { terminals = fit_terminals problem.now grid.now dies.now } }
{
    let mut slot = 0;
    for number in 0..problem.nets() {
        let net = NetId(number);
        if is_cut(problem, dies, net) {
            placement.set_terminal(net, Some(grid.centre(SlotId(slot))));
            slot += 1;
        }
    }
}
