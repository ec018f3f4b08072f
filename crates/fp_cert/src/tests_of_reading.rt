//! Certificates that are read: what no clause says, that memory is enough, and which fault comes where.

ghost use Rattle.std.specs.Prelude.{◌≡◌, length};

use crate::tests::{KEPT, expect_text};
use crate::{Ending, Trial, read_cert, read_lines};
use fp_base::{Die, LibId, TechId};
use fp_netlist::{Problem, ProblemBuilder};
use fp_tech::{BuildFault, DieSpec, Dies, Frame, TechBook, TermSpec};
use fp_text::{Kind, TextFault, Tokens};
use std::alloc::Global;
use std::process::Abort;
use std::test::Fail;

/// The certificate of a run with a cost: a trial that shows no cells, and one that found no row.
const COSTLY: &str =
    "FaceplaceCert 2\nCost 7\nLimit 8\nTrials 2\nTrial 0 better\nTopSegments 2\nSegment 0 0\nSegment 0 3\nBottomSegments 2\n\
Segment 0 1152921504606846976\nSegment 0 0\nTerminals 0\nScore 9\nTrial 1 norow 1\nTopCells 2\nCell 0\nCell 1\nAnswer 8\n";

/// The lines of a trial, with line ends and zeros that the writer does not write.
const LINES: &str = "TopSegments 02 Segment 1 0 Cell 1 5 -3 4294967296 2\nSegment 0 0\r\n\
BottomSegments 2\nSegment 0 0\tSegment 0 0\nTerminals 1\nCut 0 35 6 Score 0012";

/// Two rows on each die, and 36 slots.
fn small_dies(alloc: Global, book: TechBook) -> Result<Dies, Fail>
    requires { length book.techs ≡ 1 }
{
    let frame = Frame {
        llx: 0,
        lly: 0,
        urx: 20,
        ury: 20,
    };
    let terminal = TermSpec {
        size_x: 2,
        size_y: 2,
        spacing: 1,
        cost: 0,
    };
    let spec = DieSpec {
        percent: 80,
        tech: TechId(0),
        start_x: 0,
        start_y: 0,
        length: 20,
        height: 10,
        repeat: 2,
    };
    Ok(Dies::new(alloc, book, frame, spec, spec, terminal, &[])?)
}

/// Adds a technology with one library cell.
fn fill_book(book: &mut TechBook) -> Result<LibId, BuildFault> {
    let tech = book.add_tech(b"T")?;
    book.add_lib(tech, b"S", 4, 10)
}

/// Adds two cells and a net.
fn fill(builder: &mut ProblemBuilder, lib: LibId) -> Result<(), BuildFault> {
    builder.add_inst(b"C1", lib)?;
    builder.add_inst(b"C2", lib)?;
    builder.add_net(b"N1")?;
    Ok(())
}

/// The problem over a book with the library cell.
fn problem_over(alloc: Global, book: TechBook, lib: LibId) -> Result<Problem, Fail>
    requires { length book.techs ≡ 1 }
{
    let dies = small_dies(alloc, book)?;
    let mut builder = ProblemBuilder::new(alloc, dies);
    match fill(&mut builder, lib) {
        Ok(()) => Ok(builder.finish()?),
        Err(fault) => {
            drop(builder);
            Err(Fail::new(fault))
        }
    }
}

/// Two segments on each die, two cells, one net and 36 slots.
fn small_problem(rt: &impl Abort, alloc: Global) -> Result<Problem, Fail> {
    let mut book = TechBook::new(alloc);
    match fill_book(&mut book) {
        Ok(lib) => {
            assert!(rt; book.techs() == 1);
            problem_over(alloc, book, lib)
        }
        Err(fault) => {
            drop(book);
            Err(Fail::new(fault))
        }
    }
}

/// The run of a certificate is written as the same bytes.
fn expect_again(rt: &impl Abort, alloc: Global, problem: &Problem, text: &str) -> Result<(), Fail> {
    match read_cert(alloc, problem, text.as_bytes()) {
        Ok(run) => {
            let done = expect_text(rt, alloc, &run, text);
            drop(run);
            done
        }
        Err(_) => Err(Fail::from("a run")),
    }
}

/// So are both of these.
fn expect_both(rt: &impl Abort, alloc: Global, problem: &Problem) -> Result<(), Fail> {
    expect_again(rt, alloc, problem, KEPT)?;
    expect_again(rt, alloc, problem, COSTLY)
}

#[test]
fn what_is_read_is_written_again(rt: HostRuntime) -> Result<(), Fail> {
    let problem = small_problem(&rt, rt.alloc())?;
    let done = expect_both(&rt, rt.alloc(), &problem);
    drop(problem);
    done
}

/// The trial has the second cell on the top die, and a terminal.
fn expect_trial(rt: &impl Abort, trial: &Trial) {
    assert!(rt; trial.ending() == Ending::Better);
    assert!(rt; trial.score() == 12);
    match trial.rows(Die::Top) {
        [first, _] => match first.cells() {
            [cell] => {
                assert!(rt; cell.cell.0 == 1);
                assert!(rt; cell.x == 5);
                assert!(rt; cell.target.x == -3);
                assert!(rt; cell.target.y == 4294967296);
                assert!(rt; cell.dual == 2);
            }
            _ => assert!(rt; false, "one cell"),
        },
        _ => assert!(rt; false, "two segments"),
    }
}

/// One trial's lines, up to the end of the text.
fn expect_lines(rt: &impl Abort, alloc: Global, problem: &Problem) {
    let mut tokens = Tokens::new(LINES.as_bytes());
    match read_lines(alloc, problem, &mut tokens, Ending::Better) {
        Ok(trial) => {
            expect_trial(rt, &trial);
            drop(trial);
            assert!(rt; tokens.end().is_ok());
        }
        Err(_) => assert!(rt; false, "a trial"),
    }
}

#[test]
fn lines_as_read(rt: HostRuntime) -> Result<(), Fail> {
    let problem = small_problem(&rt, rt.alloc())?;
    expect_lines(&rt, rt.alloc(), &problem);
    drop(problem);
    Ok(())
}

/// The first fault of a text.
fn expect_fault(
    rt: &impl Abort,
    alloc: Global,
    problem: &Problem,
    text: &str,
    at: u64,
    kind: Kind,
) {
    let fault = match read_cert(alloc, problem, text.as_bytes()) {
        Ok(run) => {
            drop(run);
            None
        }
        Err(fault) => Some(fault),
    };
    assert!(rt; fault == Some(TextFault::Wrong { at, kind }), "{text}");
}

const FAULTS: [(&str, u64, Kind); 27] = [
    ("", 0, Kind::Ended),
    ("Faceplace", 0, Kind::Word),
    ("FaceplaceCert x", 14, Kind::Number),
    ("FaceplaceCert 3", 14, Kind::Range),
    ("FaceplaceCert 2\nCost 0", 21, Kind::Range),
    ("FaceplaceCert 2\nCost 1073741825", 21, Kind::Number),
    ("FaceplaceCert 1\nLimit 9", 22, Kind::Range),
    ("FaceplaceCert 1\nLimit 3\nTrials 1", 31, Kind::Range),
    (
        "FaceplaceCert 1\nLimit 3\nTrials 2\nTrial 1 start",
        39,
        Kind::Range,
    ),
    (
        "FaceplaceCert 1\nLimit 3\nTrials 2\nTrial 0 best",
        41,
        Kind::Word,
    ),
    (
        "FaceplaceCert 1\nLimit 3\nTrials 2\nTrial 0 norow 2",
        47,
        Kind::Range,
    ),
    (
        "FaceplaceCert 1\nLimit 3\nTrials 2\nTrial 0 norow 1\nTopCells 262145",
        58,
        Kind::Limit,
    ),
    (
        "FaceplaceCert 1\nLimit 3\nTrials 2\nTrial 0 start\nTopSegments 1",
        59,
        Kind::Range,
    ),
    (
        "FaceplaceCert 1\nLimit 3\nTrials 2\nTrial 0 start\nTopSegments 2\nSegment 262145 0",
        69,
        Kind::Limit,
    ),
    (
        "FaceplaceCert 1\nLimit 3\nTrials 2\nTrial 0 start\nTopSegments 2\nSegment 1 1152921504606846977",
        71,
        Kind::Number,
    ),
    (
        "FaceplaceCert 1\nLimit 3\nTrials 2\nTrial 0 start\nTopSegments 2\nSegment 1 0\nCell 2",
        78,
        Kind::Range,
    ),
    (
        "FaceplaceCert 1\nLimit 3\nTrials 2\nTrial 0 start\nTopSegments 2\nSegment 1 0\nCell 0 -1",
        80,
        Kind::Number,
    ),
    (
        "FaceplaceCert 1\nLimit 3\nTrials 2\nTrial 0 start\nTopSegments 2\nSegment 1 0\nCell 0 0 4294967297",
        82,
        Kind::Number,
    ),
    (
        "FaceplaceCert 1\nLimit 3\nTrials 2\nTrial 0 start\nTopSegments 2\nSegment 1 0\nCell 0 0 -1 --1",
        85,
        Kind::Number,
    ),
    (
        "FaceplaceCert 1\nLimit 3\nTrials 2\nTrial 0 start\nTopSegments 2\nSegment 1 0\nCell 0 0 0 0 1",
        87,
        Kind::Ended,
    ),
    (
        "FaceplaceCert 1\nLimit 3\nTrials 2\nTrial 0 start\nTopSegments 2\nSegment 0 0\nSegment 0 0\nBottomSegments 2\nSegment 262145",
        110,
        Kind::Limit,
    ),
    (
        "FaceplaceCert 1\nLimit 3\nTrials 2\nTrial 0 start\nTopSegments 2\nSegment 0 0\nSegment 0 0\nBottomSegments 2\nSegment 0 0\nSegment 0 0\nScore",
        126,
        Kind::Word,
    ),
    (
        "FaceplaceCert 1\nLimit 3\nTrials 2\nTrial 0 start\nTopSegments 2\nSegment 0 0\nSegment 0 0\nBottomSegments 2\nSegment 0 0\nSegment 0 0\nTerminals 1\nCut 1",
        142,
        Kind::Range,
    ),
    (
        "FaceplaceCert 1\nLimit 3\nTrials 2\nTrial 0 start\nTopSegments 2\nSegment 0 0\nSegment 0 0\nBottomSegments 2\nSegment 0 0\nSegment 0 0\nTerminals 1\nCut 0 36",
        144,
        Kind::Range,
    ),
    (
        "FaceplaceCert 1\nLimit 3\nTrials 2\nTrial 0 start\nTopSegments 2\nSegment 0 0\nSegment 0 0\nBottomSegments 2\nSegment 0 0\nSegment 0 0\nTerminals 1\nCut 0 35 -1",
        147,
        Kind::Number,
    ),
    (
        "FaceplaceCert 1\nLimit 3\nTrials 2\nTrial 0 start\nTopSegments 2\nSegment 0 0\nSegment 0 0\nBottomSegments 2\nSegment 0 0\nSegment 0 0\nTerminals 0\nScore 5\nTrial 1 norow 0\nTopCells 0\nAnswer 9",
        180,
        Kind::Range,
    ),
    (
        "FaceplaceCert 1\nLimit 3\nTrials 2\nTrial 0 start\nTopSegments 2\nSegment 0 0\nSegment 0 0\nBottomSegments 2\nSegment 0 0\nSegment 0 0\nTerminals 0\nScore 5\nTrial 1 norow 0\nTopCells 0\nAnswer 0\nx",
        182,
        Kind::Trailing,
    ),
];

#[test]
fn first_faults(rt: HostRuntime) -> Result<(), Fail> {
    let problem = small_problem(&rt, rt.alloc())?;
    for (text, at, kind) in FAULTS {
        expect_fault(&rt, rt.alloc(), &problem, text, at, kind);
    }
    drop(problem);
    Ok(())
}
