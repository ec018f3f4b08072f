//! What no clause says: the lines as they are printed and read, and that memory is enough.

ghost use Rattle.std.specs.Prelude.{◌≡◌, length};

use crate::lines::{write_head, write_line};
use crate::read_out;
use fp_base::{CellId, Die, LibId, MemFolder, NetId, Point, TechId};
use fp_netlist::{Problem, ProblemBuilder};
use fp_place::{Drawn, DrawnCell, DrawnTerminal};
use fp_tech::{BuildFault, DieSpec, Dies, Frame, TechBook, TermSpec};
use fp_text::{Kind, TextFault, Writer};
use std::alloc::Global;
use std::process::Abort;
use std::test::Fail;

/// The greatest coordinate.
const GREATEST: i64 = 1 << 30;

#[test]
fn lines_as_printed(rt: HostRuntime) -> Result<(), Fail> {
    let mut folder = MemFolder::new(rt.alloc(), &[], 1, 100)?;
    let mut writer = Writer::new(&mut folder, "o");
    write_head(&mut writer, &mut folder, "o", b"NumTerminals", 1);
    let centre = Point { x: 7, y: 20 };
    write_line(&mut writer, &mut folder, "o", b"Terminal", b"n1", centre);
    writer.finish(&mut folder, "o")?;
    let text = b"NumTerminals 1\nTerminal n1 7 20\n".as_slice();
    assert!(rt; folder.file("o") == Some(text));
    Ok(())
}

/// Dies of a book with one technology.
fn small_dies(alloc: Global, book: TechBook) -> Result<Dies, Fail>
    requires { length book.techs ≡ 1 }
{
    let frame = Frame {
        llx: 0,
        lly: 0,
        urx: 20,
        ury: 20,
    };
    let terminal = TermSpec {
        size_x: 2,
        size_y: 2,
        spacing: 1,
        cost: 0,
    };
    let spec = DieSpec {
        percent: 80,
        tech: TechId(0),
        start_x: 0,
        start_y: 0,
        length: 20,
        height: 5,
        repeat: 3,
    };
    Ok(Dies::new(alloc, book, frame, spec, spec, terminal, &[])?)
}

/// Adds a technology with one library cell.
fn fill_book(book: &mut TechBook) -> Result<LibId, BuildFault> {
    let tech = book.add_tech(b"TA")?;
    book.add_lib(tech, b"MC1", 3, 5)
}

/// Adds the cells C1 and C2 and the net N1.
fn fill(builder: &mut ProblemBuilder, lib: LibId) -> Result<NetId, BuildFault> {
    builder.add_inst(b"C1", lib)?;
    builder.add_inst(b"C2", lib)?;
    builder.add_net(b"N1")
}

/// The problem over a book with the library cell.
fn problem_over(alloc: Global, book: TechBook, lib: LibId) -> Result<Problem, Fail>
    requires { length book.techs ≡ 1 }
{
    let dies = small_dies(alloc, book)?;
    let mut builder = ProblemBuilder::new(alloc, dies);
    match fill(&mut builder, lib) {
        Ok(_net) => Ok(builder.finish()?),
        Err(fault) => {
            drop(builder);
            Err(Fail::new(fault))
        }
    }
}

/// A problem of the cells C1 and C2 and the net N1.
fn small_problem(rt: &impl Abort, alloc: Global) -> Result<Problem, Fail> {
    let mut book = TechBook::new(alloc);
    match fill_book(&mut book) {
        Ok(lib) => {
            assert!(rt; book.techs() == 1);
            problem_over(alloc, book, lib)
        }
        Err(fault) => {
            drop(book);
            Err(Fail::new(fault))
        }
    }
}

/// The drawing has two cells on the top die, one on the bottom die, and a terminal.
fn expect_lines(rt: &impl Abort, drawn: &Drawn) {
    let (first, second) = (CellId(0), CellId(1));
    let top = [
        DrawnCell {
            cell: second,
            x: 0,
            y: 4,
        },
        DrawnCell {
            cell: first,
            x: GREATEST,
            y: 5,
        },
    ];
    let bottom = [DrawnCell {
        cell: second,
        x: 6,
        y: 7,
    }];
    let terminals = [DrawnTerminal {
        net: NetId(0),
        x: 8,
        y: 9,
    }];
    assert!(rt; drawn.cells(Die::Top) == top.as_slice());
    assert!(rt; drawn.cells(Die::Bottom) == bottom.as_slice());
    assert!(rt; drawn.terminals() == terminals.as_slice());
}

fn expect_read(rt: &impl Abort, alloc: Global, problem: &Problem, text: &str) {
    match read_out(alloc, problem, text.as_bytes()) {
        Ok(drawn) => {
            expect_lines(rt, &drawn);
            drop(drawn);
        }
        Err(_fault) => assert!(rt; false, "a drawing"),
    }
}

#[test]
fn lines_as_read(rt: HostRuntime) -> Result<(), Fail> {
    let problem = small_problem(&rt, rt.alloc())?;
    let text = "TopDiePlacement 2\nInst C2 0 04\nInst C1 1073741824 5\nBottomDiePlacement 1\r\n\
Inst\tC2 6 7 NumTerminals 1\nTerminal N1 8 9\n";
    expect_read(&rt, rt.alloc(), &problem, text);
    drop(problem);
    Ok(())
}

/// The first fault of a text.
fn expect_fault(
    rt: &impl Abort,
    alloc: Global,
    problem: &Problem,
    text: &str,
    at: u64,
    kind: Kind,
) {
    let fault = match read_out(alloc, problem, text.as_bytes()) {
        Ok(drawn) => {
            drop(drawn);
            None
        }
        Err(fault) => Some(fault),
    };
    assert!(rt; fault == Some(TextFault::Wrong { at, kind }), "{text}");
}

const FAULTS: [(&str, u64, Kind); 14] = [
    ("", 0, Kind::Ended),
    ("BottomDiePlacement 0", 0, Kind::Word),
    ("TopDiePlacement x", 16, Kind::Number),
    ("TopDiePlacement 1073741825", 16, Kind::Number),
    ("TopDiePlacement 262145", 16, Kind::Limit),
    ("TopDiePlacement 1\nTerminal", 18, Kind::Word),
    ("TopDiePlacement 1\nInst C9 0 0", 23, Kind::Unknown),
    ("TopDiePlacement 1\nInst N1 0 0", 23, Kind::Unknown),
    ("TopDiePlacement 1\nInst C\u{e8} 0 0", 23, Kind::Unknown),
    ("TopDiePlacement 1\nInst C1 -1 0", 26, Kind::Number),
    ("TopDiePlacement 1\nInst C1 1 1073741825", 28, Kind::Number),
    ("TopDiePlacement 1\nInst C1 1\n", 28, Kind::Ended),
    (
        "TopDiePlacement 0\nBottomDiePlacement 0\nNumTerminals 1\nTerminal C1 0 0",
        63,
        Kind::Unknown,
    ),
    (
        "TopDiePlacement 0\nBottomDiePlacement 0\nNumTerminals 0\nx",
        54,
        Kind::Trailing,
    ),
];

#[test]
fn first_faults(rt: HostRuntime) -> Result<(), Fail> {
    let problem = small_problem(&rt, rt.alloc())?;
    for (text, at, kind) in FAULTS {
        expect_fault(&rt, rt.alloc(), &problem, text, at, kind);
    }
    drop(problem);
    Ok(())
}
