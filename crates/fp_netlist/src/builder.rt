//! The building of a problem.

ghost use Rattle.std.specs.Prelude.{◌≡◌, ◌<◌, ◌≤◌, ◌^◌, length, All, IfOk, if◌then◌else◌};
ghost use Rattle.std.specs.Option.{option_map};
ghost use Rattle.fp_tech.specs.Book.{place_of, is_among, Adds};
ghost use Rattle.fp_tech.specs.declared.fault.BuildFault.TheVariants.{Twice, Unknown};
ghost use Rattle.fp_netlist.specs.KeptGroups.{AreGroups};
ghost use Rattle.fp_netlist.specs.KeptProblem.{cell_keys, net_keys};
ghost use Rattle.fp_netlist.specs.Netlist.{cell_names, IsSound, no_cells, with_inst, with_net, with_conn, inst_refusal, net_refusal, connect_refusal};

use crate::groups::Groups;
use crate::kept::{KeptCell, KeptConn};
use crate::problem::Problem;
use fp_base::{CellId, ConnId, LibId, NetId, NoMemory};
use fp_tech::{BuildFault, Dies, Names};
use std::alloc::{AllocError, Global};
use std::marker::Model;

/// The most cells, and the most nets.
const CELLS: usize = 1 << 18;

/// The most connections.
const CONNS: usize = 1 << 21;

/// A problem as it grows: cells, nets and connections are numbered from 0 in the order of adding. At most 2^18 cells,
/// 2^18 nets and 2^21 connections. A refusal, or want of memory, leaves all as it was.
#[derive(Drop)]
pub struct ProblemBuilder {
    alloc: Global,
    dies: Dies,
    cell_names: Names,
    cells: Vec<KeptCell>,
    net_names: Names,
    conns: Vec<KeptConn>,
}

impl Model for ProblemBuilder {
    ghost use Rattle.fp_netlist.specs.Netlist.{Netlist};
    ghost use Rattle.fp_netlist.specs.KeptNetlist.{netlist_of, IsKept};

    ghost Value = { Netlist };

    ghost view = { λ b. netlist_of b.dies b.cell_names b.cells.items b.net_names b.conns.items };

    ghost invariant = { λ b. IsKept b.dies b.cell_names b.cells.items b.net_names b.conns.items };
}

impl ProblemBuilder {
    /// A problem over these dies without cells and nets, which takes no memory.
    pub fn new(alloc: Global, dies: Dies) -> ProblemBuilder
        ensures { result ≡ no_cells dies }
    {
        let _technologies = dies.book().techs();
        ProblemBuilder {
            alloc,
            dies,
            cell_names: Names::new(alloc),
            cells: Vec::new(alloc),
            net_names: Names::new(alloc),
            conns: Vec::new(alloc),
        }
    }

    /// The dies with their technologies.
    pub fn dies(&self) -> &Dies
        ensures { result.now ≡ self.now.plan }
    {
        &self.dies
    }

    /// The number of cells so far, at most 2^18.
    pub fn cells(&self) -> u32
        ensures count { result ≡ length self.now.cells }
        ensures sound { IsSound self.now }
    {
        self.cells.len() as u32
    }

    /// The number of nets so far, at most 2^18.
    pub fn nets(&self) -> u32
        ensures count { result ≡ length self.now.nets }
        ensures sound { IsSound self.now }
    {
        self.net_names.len() as u32
    }

    /// The number of connections so far, at most 2^21.
    pub fn conns(&self) -> u32
        ensures count { result ≡ length self.now.conns }
        ensures sound { IsSound self.now }
    {
        self.conns.len() as u32
    }

    /// The cell of that name, or None exactly where no cell has it.
    pub fn cell_named(&self, name: &[u8]) -> Option<CellId>
        ensures { result ≡ option_map (λ cell. record { 0 = cell })
            (place_of name.now (cell_names self.now)) }
    {
        let place = self.cell_names.place(name)?;
        Some(CellId(place as u32))
    }

    /// The net of that name, or None exactly where no net has it.
    pub fn net_named(&self, name: &[u8]) -> Option<NetId>
        ensures { result ≡ option_map (λ net. record { 0 = net }) (place_of name.now self.now.nets) }
    {
        let place = self.net_names.place(name)?;
        Some(NetId(place as u32))
    }

    /// Adds a cell of a library cell. `Limit` exactly at 2^18 cells, else `Twice` exactly where a cell has the name,
    /// else `Unknown` exactly where the technology of either die lacks the library cell.
    pub fn add_inst(&mut self, name: &[u8], lib: LibId) -> Result<CellId, BuildFault>
        ensures { Adds (inst_refusal self.old name.now lib.0) (record { 0 = length self.old.cells }) self.old
            (with_inst self.old name.now lib.0) result self.new }
    {
        let count = self.cells.len();
        if count >= CELLS {
            return Err(BuildFault::Limit);
        }
        let Some(cell) = KeptCell::of(&self.dies, lib) else {
            return Err(self.twice_or_unknown(name));
        };
        if !self.cell_names.add(self.alloc, name)? {
            return Err(BuildFault::Twice);
        }
        if self.cells.push(cell).is_err() {
            self.cell_names.truncate(count);
            return Err(BuildFault::Memory);
        }
        Ok(CellId(count as u32))
    }

    // Why a cell of a library cell that a die lacks is refused.
    fn twice_or_unknown(&self, name: &[u8]) -> BuildFault
        ensures { result ≡ if is_among name.now (cell_names self.now) then Twice else Unknown }
    {
        if self.cell_names.place(name).is_some() {
            BuildFault::Twice
        } else {
            BuildFault::Unknown
        }
    }

    /// Adds a net. `Limit` exactly at 2^18 nets, else `Twice` exactly where a net has the name.
    pub fn add_net(&mut self, name: &[u8]) -> Result<NetId, BuildFault>
        ensures { Adds (net_refusal self.old name.now) (record { 0 = length self.old.nets }) self.old
            (with_net self.old name.now) result self.new }
    {
        let count = self.net_names.len();
        if count >= CELLS {
            return Err(BuildFault::Limit);
        }
        if !self.net_names.add(self.alloc, name)? {
            return Err(BuildFault::Twice);
        }
        Ok(NetId(count as u32))
    }

    /// Adds a connection of a net with a cell's pin; both are there. `Limit` exactly at 2^21 connections, else `Unknown`
    /// exactly where the cell's library cell lacks the pin in the technology of either die. A pin may be connected
    /// again: that is one more connection.
    pub fn connect(&mut self, net: NetId, cell: CellId, pin: &[u8]) -> Result<ConnId, BuildFault>
        requires net { net.0 < length self.old.nets }
        requires cell { cell.0 < length self.old.cells }
        ensures { Adds (connect_refusal self.old cell.0 pin.now) (record { 0 = length self.old.conns }) self.old
            (with_conn self.old net.0 cell.0 pin.now) result self.new }
    {
        let count = self.conns.len();
        if count >= CONNS {
            return Err(BuildFault::Limit);
        }
        let lib = self.cells[cell.0 as usize].lib;
        let Some(conn) = KeptConn::of(&self.dies, lib, net, cell, pin) else {
            return Err(BuildFault::Unknown);
        };
        self.conns.push(conn)?;
        Ok(ConnId(count as u32))
    }

    /// The problem as it stands, with the connections of each cell and of each net. Where memory is wanting the builder
    /// is dropped.
    pub fn finish(self) -> Result<Problem, NoMemory>
        ensures { IfOk result (λ problem. problem ≡ self) }
    {
        let by_cell = groups_by_cell(self.alloc, self.cells.len(), &self.conns)?;
        let by_net = groups_by_net(self.alloc, self.net_names.len(), &self.conns)?;
        Ok(Problem {
            dies: self.dies,
            cell_names: self.cell_names,
            cells: self.cells,
            net_names: self.net_names,
            conns: self.conns,
            by_cell,
            by_net,
        })
    }
}

// The connections in groups by their cells.
fn groups_by_cell(alloc: Global, cells: usize, conns: &[KeptConn]) -> Result<Groups, AllocError>
    requires few_cells { cells ≤ 2 ^ 18 }
    requires few_conns { length conns.now ≤ 2 ^ 21 }
    requires within { All (λ kept. kept.conn.cell.0 < cells) conns.now }
    ensures { IfOk result (λ g. AreGroups g.starts.items g.members.items (cell_keys conns.now) cells) }
{
    let keys: Vec<u32> = conns.iter().map(|kept| kept.conn.cell.0).collect(alloc)?;
    Groups::by_key(alloc, cells, &keys)
}

// The connections in groups by their nets.
fn groups_by_net(alloc: Global, nets: usize, conns: &[KeptConn]) -> Result<Groups, AllocError>
    requires few_nets { nets ≤ 2 ^ 18 }
    requires few_conns { length conns.now ≤ 2 ^ 21 }
    requires within { All (λ kept. kept.conn.net.0 < nets) conns.now }
    ensures { IfOk result (λ g. AreGroups g.starts.items g.members.items (net_keys conns.now) nets) }
{
    let keys: Vec<u32> = conns.iter().map(|kept| kept.conn.net.0).collect(alloc)?;
    Groups::by_key(alloc, nets, &keys)
}
