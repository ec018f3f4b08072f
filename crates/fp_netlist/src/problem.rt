//! A problem and its readers.

ghost use Rattle.std.specs.Prelude.{◌≡◌, ◌<◌, ◌≤◌, ◌^◌, ◌≤ℤ◌, pos, length, map, slice_get, Some};
ghost use Rattle.std.specs.Option.{option_map};
ghost use Rattle.fp_tech.specs.Book.{place_of};
ghost use Rattle.fp_netlist.specs.Netlist.{cell_names, lib_of, conns_of_cell, conns_of_net, IsConn, IsSound};
ghost use Rattle.fp_netlist.specs.Points.{width, height, area, offset};

use crate::groups::Groups;
use crate::kept::{KeptCell, KeptConn, point};
use fp_base::{CellId, ConnId, Die, LibId, NetId, Point};
use fp_tech::{Dies, Names};
use std::marker::Model;

/// A connection: a pin of a cell in a net, with the pin's number in each die's technology.
#[derive(Clone, Copy, Debug, PartialEq, Eq)]
pub struct Conn {
    pub cell: CellId,
    pub net: NetId,
    pub top_pin: u32,
    pub bottom_pin: u32,
}

/// A netlist over two dies: cells, nets and connections, each numbered from 0 in file order. Each
/// connection stands exactly once in the list of its cell, exactly once in the list of its net, and
/// nowhere else.
#[derive(Drop)]
pub struct Problem {
    pub(crate) dies: Dies,
    pub(crate) cell_names: Names,
    pub(crate) cells: Vec<KeptCell>,
    pub(crate) net_names: Names,
    pub(crate) conns: Vec<KeptConn>,
    pub(crate) by_cell: Groups,
    pub(crate) by_net: Groups,
}

impl Model for Problem {
    ghost use Rattle.fp_netlist.specs.Netlist.{Netlist};
    ghost use Rattle.fp_netlist.specs.KeptNetlist.{netlist_of};

    ghost Value = { Netlist };

    ghost view = { λ p. netlist_of p.dies p.cell_names p.cells.items p.net_names p.conns.items };

    ghost use Rattle.fp_netlist.specs.KeptProblem.{IsKeptProblem};

    ghost invariant = { IsKeptProblem };
}

impl Problem {
    /// The dies with their technologies.
    pub fn dies(&self) -> &Dies
        ensures { result.now ≡ self.now.plan }
    {
        &self.dies
    }

    /// The number of cells, at most 2^18.
    pub fn cells(&self) -> u32
        ensures count { result ≡ length self.now.cells }
        ensures sound { IsSound self.now }
    {
        self.cells.len() as u32
    }

    /// The number of nets, at most 2^18.
    pub fn nets(&self) -> u32
        ensures count { result ≡ length self.now.nets }
        ensures sound { IsSound self.now }
    {
        self.net_names.len() as u32
    }

    /// The number of connections, at most 2^21.
    pub fn conns(&self) -> u32
        ensures count { result ≡ length self.now.conns }
        ensures sound { IsSound self.now }
    {
        self.conns.len() as u32
    }

    /// The name of a cell.
    pub fn cell_name(&self, cell: CellId) -> &[u8]
        requires { cell.0 < length self.now.cells }
        ensures { slice_get (cell_names self.now) cell.0 ≡ Some result.now }
    {
        self.cell_names.name(cell.0 as usize)
    }

    /// The name of a net.
    pub fn net_name(&self, net: NetId) -> &[u8]
        requires { net.0 < length self.now.nets }
        ensures { slice_get self.now.nets net.0 ≡ Some result.now }
    {
        self.net_names.name(net.0 as usize)
    }

    /// The cell of that name, or None exactly where no cell has it.
    pub fn cell_named(&self, name: &[u8]) -> Option<CellId>
        ensures { result ≡ option_map (λ cell. record { 0 = cell })
            (place_of name.now (cell_names self.now)) }
    {
        let place = self.cell_names.place(name)?;
        Some(CellId(place as u32))
    }

    /// The net of that name, or None exactly where no net has it.
    pub fn net_named(&self, name: &[u8]) -> Option<NetId>
        ensures { result ≡ option_map (λ net. record { 0 = net }) (place_of name.now self.now.nets) }
    {
        let place = self.net_names.place(name)?;
        Some(NetId(place as u32))
    }

    /// The library cell of a cell, below 2^16: there are at most 16 technologies of 4,096.
    pub fn lib_of(&self, cell: CellId) -> LibId
        requires { cell.0 < length self.now.cells }
        ensures lib { result.0 ≡ lib_of self.now cell.0 }
        ensures small { result.0 < 2 ^ 16 }
    {
        self.cells[cell.0 as usize].lib
    }

    /// A connection; its cell, its net and its pins are in range.
    pub fn conn(&self, conn: ConnId) -> Conn
        requires { conn.0 < length self.now.conns }
        ensures conn { slice_get self.now.conns conn.0 ≡ Some result }
        ensures within { IsConn self.now result }
    {
        self.conns[conn.0 as usize].conn
    }

    /// The connections of a cell, each once, in file order.
    pub fn conns_of_cell(&self, cell: CellId) -> &[ConnId]
        requires { cell.0 < length self.now.cells }
        ensures { result.now ≡ map (λ conn. record { 0 = conn }) (conns_of_cell self.now cell.0) }
    {
        self.by_cell.group(cell.0)
    }

    /// The connections of a net, each once, in file order.
    pub fn conns_of_net(&self, net: NetId) -> &[ConnId]
        requires { net.0 < length self.now.nets }
        ensures { result.now ≡ map (λ conn. record { 0 = conn }) (conns_of_net self.now net.0) }
    {
        self.by_net.group(net.0)
    }

    // Width and height of a cell on a die.
    fn size(&self, cell: CellId, die: Die) -> (u32, u32)
        requires { cell.0 < length self.now.cells }
        ensures width { result.0 ≡ width self.now cell.0 die }
        ensures height { result.1 ≡ height self.now cell.0 die }
        ensures widths { (1 ≤ result.0) × (result.0 ≤ 2 ^ 30) }
        ensures heights { (1 ≤ result.1) × (result.1 ≤ 2 ^ 30) }
    {
        self.cells[cell.0 as usize].size(die)
    }

    /// The width of a cell on a die, from 1 to 2^30: that of its library cell in the die's
    /// technology.
    pub fn width(&self, cell: CellId, die: Die) -> i64
        requires { cell.0 < length self.now.cells }
        ensures width { result ≡ pos (width self.now cell.0 die) }
        ensures range { (pos 1 ≤ℤ result) × (result ≤ℤ pos (2 ^ 30)) }
    {
        i64::from(self.size(cell, die).0)
    }

    /// The height of a cell on a die, from 1 to 2^30, alike.
    pub fn height(&self, cell: CellId, die: Die) -> i64
        requires { cell.0 < length self.now.cells }
        ensures height { result ≡ pos (height self.now cell.0 die) }
        ensures range { (pos 1 ≤ℤ result) × (result ≤ℤ pos (2 ^ 30)) }
    {
        i64::from(self.size(cell, die).1)
    }

    /// The area of a cell on a die, width by height, from 1 to 2^60.
    pub fn area(&self, cell: CellId, die: Die) -> u64
        requires { cell.0 < length self.now.cells }
        ensures area { result ≡ area self.now cell.0 die }
        ensures range { (1 ≤ result) × (result ≤ 2 ^ 60) }
    {
        let (width, height) = self.size(cell, die);
        u64::from(width) * u64::from(height)
    }

    /// The offset of a connection's pin on a die from its cell's lower left corner, from 0 to 2^30
    /// on each axis.
    pub fn offset(&self, conn: ConnId, die: Die) -> Point
        requires { conn.0 < length self.now.conns }
        ensures offset { option_map (λ c. offset self.now c die) (slice_get self.now.conns conn.0) ≡ Some result }
        ensures x { (pos 0 ≤ℤ result.x) × (result.x ≤ℤ pos (2 ^ 30)) }
        ensures y { (pos 0 ≤ℤ result.y) × (result.y ≤ℤ pos (2 ^ 30)) }
    {
        point(self.conns[conn.0 as usize].offset(die))
    }
}
