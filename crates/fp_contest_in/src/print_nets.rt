//! Printing the instances and the nets.

ghost use Rattle.std.specs.Prelude.{◌≡◌, ◌<◌, ℕ, List, length, map, Some, slice_get};
ghost use Rattle.fp_text.specs.Writing.{told, GoesOn, Adds};
ghost use Rattle.fp_netlist.specs.declared.problem.Conn.{Conn};
ghost use Rattle.fp_netlist.specs.Netlist.{Cell, IsSound, cell_names};
ghost use Rattle.fp_contest_in.specs.PrintedText.{inst_said, conn_said, net_conns, net_said, nets_said, inst_line, insts_lines, conn_line, conn_lines, net_lines, nets_lines};

use crate::lines::{write_named_line, write_numbers_line, write_pair_line, write_path_line};
use fp_base::{CellId, ConnId, Die, Folder, NetId};
use fp_netlist::Problem;
use fp_text::Writer;

/// Adds the line of an instance.
fn write_inst<F: Folder>(
    writer: &mut Writer,
    folder: &mut F,
    name: &str,
    problem: &Problem,
    cell: CellId,
)
    requires sound { IsSound problem.now }
    requires cell { cell.0 < length problem.now.cells }
    requires goes_on { GoesOn name.now (told F.held F.made F.faults folder.old) writer.old }
    ensures adds { (c : Cell) → slice_get problem.now.cells cell.0 ≡ Some c
        → Adds name.now (inst_line (inst_said problem.now.plan.book.names c)) (told F.held F.made F.faults folder.old)
        (told F.held F.made F.faults folder.new) writer.old writer.new }
    ensures goes_on { GoesOn name.now (told F.held F.made F.faults folder.new) writer.new }
{
    let lib = problem.dies().book().lib_name(problem.lib_of(cell));
    write_pair_line(writer, folder, name, b"Inst", problem.cell_name(cell), lib);
}

/// Adds the lines of the instances.
pub fn write_insts<F: Folder>(writer: &mut Writer, folder: &mut F, name: &str, problem: &Problem)
    requires goes_on { GoesOn name.now (told F.held F.made F.faults folder.old) writer.old }
    ensures adds { Adds name.now (insts_lines (map (inst_said problem.now.plan.book.names) problem.now.cells)) (told F.held F.made F.faults folder.old)
        (told F.held F.made F.faults folder.new) writer.old writer.new }
    ensures goes_on { GoesOn name.now (told F.held F.made F.faults folder.new) writer.new }
{
    let cells = problem.cells();
    write_numbers_line(writer, folder, name, b"NumInstances", &[cells]);
    for cell in 0..cells {
        write_inst(writer, folder, name, problem, CellId(cell));
    }
}

/// Adds the line of a connection: its cell, and its pin by the name in the top die's technology.
fn write_conn<F: Folder>(
    writer: &mut Writer,
    folder: &mut F,
    name: &str,
    problem: &Problem,
    conn: ConnId,
)
    requires sound { IsSound problem.now }
    requires conn { conn.0 < length problem.now.conns }
    requires goes_on { GoesOn name.now (told F.held F.made F.faults folder.old) writer.old }
    ensures adds { (c : Conn) → slice_get problem.now.conns conn.0 ≡ Some c
        → Adds name.now (conn_line (cell_names problem.now) (conn_said problem.now c)) (told F.held F.made F.faults folder.old)
        (told F.held F.made F.faults folder.new) writer.old writer.new }
    ensures goes_on { GoesOn name.now (told F.held F.made F.faults folder.new) writer.new }
{
    let conn = problem.conn(conn);
    let dies = problem.dies();
    let tech = dies.spec(Die::Top).tech;
    let lib = problem.lib_of(conn.cell);
    let pin = dies.book().pin_name(tech, lib, conn.top_pin);
    write_path_line(
        writer,
        folder,
        name,
        b"Pin",
        problem.cell_name(conn.cell),
        pin,
    );
}

/// Adds the lines of a net's connections.
fn write_conns<F: Folder>(
    writer: &mut Writer,
    folder: &mut F,
    name: &str,
    problem: &Problem,
    net: NetId,
)
    requires sound { IsSound problem.now }
    requires net { net.0 < length problem.now.nets }
    requires goes_on { GoesOn name.now (told F.held F.made F.faults folder.old) writer.old }
    ensures adds { Adds name.now (conn_lines (cell_names problem.now) (map (conn_said problem.now) (net_conns problem.now net.0))) (told F.held F.made F.faults folder.old)
        (told F.held F.made F.faults folder.new) writer.old writer.new }
    ensures goes_on { GoesOn name.now (told F.held F.made F.faults folder.new) writer.new }
{
    for conn in problem.conns_of_net(net) {
        write_conn(writer, folder, name, problem, *conn);
    }
}

/// Adds the lines of a net.
fn write_net<F: Folder>(
    writer: &mut Writer,
    folder: &mut F,
    name: &str,
    problem: &Problem,
    net: NetId,
)
    requires sound { IsSound problem.now }
    requires net { net.0 < length problem.now.nets }
    requires goes_on { GoesOn name.now (told F.held F.made F.faults folder.old) writer.old }
    ensures adds { (n : List ℕ) → slice_get problem.now.nets net.0 ≡ Some n
        → Adds name.now (net_lines (cell_names problem.now) (net_said problem.now net.0 n)) (told F.held F.made F.faults folder.old)
        (told F.held F.made F.faults folder.new) writer.old writer.new }
    ensures goes_on { GoesOn name.now (told F.held F.made F.faults folder.new) writer.new }
{
    let pins = problem.conns_of_net(net).len() as u32;
    write_named_line(writer, folder, name, b"Net", problem.net_name(net), &[pins]);
    write_conns(writer, folder, name, problem, net);
}

/// Adds the lines of the nets.
pub fn write_nets<F: Folder>(writer: &mut Writer, folder: &mut F, name: &str, problem: &Problem)
    requires goes_on { GoesOn name.now (told F.held F.made F.faults folder.old) writer.old }
    ensures adds { Adds name.now (nets_lines (cell_names problem.now) (nets_said problem.now 0 problem.now.nets)) (told F.held F.made F.faults folder.old)
        (told F.held F.made F.faults folder.new) writer.old writer.new }
    ensures goes_on { GoesOn name.now (told F.held F.made F.faults folder.new) writer.new }
{
    let nets = problem.nets();
    write_numbers_line(writer, folder, name, b"NumNets", &[nets]);
    for net in 0..nets {
        write_net(writer, folder, name, problem, NetId(net));
    }
}
