//! The cells of each net and the nets of each cell, each once.

ghost use Rattle.std.specs.Prelude.{◌≡◌, ℕ, ◌+◌, ◌<◌, ◌≤◌, ◌^◌, [], IfOk, OnOk, length};
ghost use Rattle.fp_gains.specs.Links.{with_key_new, cells_of_net, nets_of_cell, FindsKeys, AreCellsByNet, AreNetsByCell};

use crate::lists::Lists;
use fp_base::{CellId, NetId};
use fp_netlist::Problem;
use std::alloc::{AllocError, Global};
use std::marker::Model;

/// Numbers below a bound, each taken once. A number that is taken bears the list's mark.
#[derive(Drop)]
struct Found {
    stamps: Vec<u32>,
    mark: u32,
    keys: Vec<u32>,
}

impl Model for Found {
    ghost use Rattle.std.specs.Prelude.{length};
    ghost use Rattle.fp_gains.specs.Links.{Finding, AreStamped};

    ghost Value = { Finding };

    ghost view = { λ f. record { room = length f.stamps.items; mark = f.mark; keys = f.keys.items } };

    ghost invariant = { λ f. AreStamped f.stamps.items f.mark f.keys.items };
}

impl Found {
    // No list yet, of numbers below `room`.
    fn new(alloc: Global, room: usize) -> Result<Found, AllocError>
        ensures { IfOk result (λ found. found ≡ record { room = room; mark = 1; keys = [] }) }
    {
        let stamps = vec![in alloc; 0; room]?;
        let keys = Vec::new(alloc);
        Ok(Found {
            stamps,
            mark: 1,
            keys,
        })
    }

    // Begins the next list.
    fn begin(&mut self)
        requires { self.old.mark < 2 ^ 30 }
        ensures { self.new ≡ record { room = self.old.room; mark = self.old.mark + 1; keys = [] } }
    {
        self.mark += 1;
        self.keys.clear();
    }

    // The numbers of the list.
    fn keys(&self) -> &[u32]
        ensures { result.now ≡ self.now.keys }
    {
        &self.keys
    }

    // Takes a number, unless the list has it.
    fn add(&mut self, key: u32) -> Result<(), AllocError>
        requires { key < self.old.room }
        ensures { OnOk result (self.new ≡ with_key_new self.old key) }
    {
        if self.stamps[key as usize] != self.mark {
            self.keys.push(key)?;
            self.stamps[key as usize] = self.mark;
        }
        Ok(())
    }
}

// Finds the cells of a net.
fn find_cells(problem: &Problem, net: NetId, found: &mut Found) -> Result<(), AllocError>
    requires net { net.0 < length problem.now.nets }
    requires room { found.old.room ≡ length problem.now.cells }
    requires mark { found.old.mark < 2 ^ 30 }
    ensures { OnOk result (FindsKeys (cells_of_net problem.now net.0) found.old found.new) }
{
    found.begin();
    for conn in problem.conns_of_net(net) {
        found.add(problem.conn(*conn).cell.0)?;
    }
    Ok(())
}

// Finds the nets of a cell.
fn find_nets(problem: &Problem, cell: CellId, found: &mut Found) -> Result<(), AllocError>
    requires cell { cell.0 < length problem.now.cells }
    requires room { found.old.room ≡ length problem.now.nets }
    requires mark { found.old.mark < 2 ^ 30 }
    ensures { OnOk result (FindsKeys (nets_of_cell problem.now cell.0) found.old found.new) }
{
    found.begin();
    for conn in problem.conns_of_cell(cell) {
        found.add(problem.conn(*conn).net.0)?;
    }
    Ok(())
}

/// The cells of each net, each once, though a cell may have several connections in it.
pub fn cells_by_net(alloc: Global, problem: &Problem) -> Result<Lists, AllocError>
    ensures { IfOk result (AreCellsByNet problem.now) }
{
    let mut lists = Lists::new(alloc)?;
    let mut found = Found::new(alloc, problem.cells() as usize)?;
    for net in 0..problem.nets() {
        find_cells(problem, NetId(net), &mut found)?;
        lists.push(found.keys())?;
    }
    Ok(lists)
}

/// The nets of each cell, each once.
pub fn nets_by_cell(alloc: Global, problem: &Problem) -> Result<Lists, AllocError>
    ensures { IfOk result (AreNetsByCell problem.now) }
{
    let mut lists = Lists::new(alloc)?;
    let mut found = Found::new(alloc, problem.nets() as usize)?;
    for cell in 0..problem.cells() {
        find_nets(problem, CellId(cell), &mut found)?;
        lists.push(found.keys())?;
    }
    Ok(lists)
}
