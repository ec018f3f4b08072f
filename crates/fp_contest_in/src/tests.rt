//! The reader on small inputs.

ghost use Rattle.std.specs.Prelude.{◌≤◌};

use crate::read_problem;
use fp_base::{Bottom, Die, LibId, NetId, TechId};
use fp_netlist::Problem;
use fp_tech::Segment;
use fp_text::{Kind, TextFault};
use std::alloc::{AllocError, Global};
use std::test::Fail;

/// The technologies of an input.
const TECHS: &str = "NumTechnologies 2\nTech TA 1\nLibCell MC1 4 10 1\nPin P1 1 2\n\
Tech TB 2\nLibCell MC2 6 10 0\nLibCell MC1 5 10 1\nPin P1 2 3\n";

/// Its sections, in an order of their own.
const SECTIONS: &str = "TerminalSpacing 1\nTerminalSize 2 3\nBottomDieTech TB\nTopDieTech TA\n\
BottomDieRows 0 0 20 10 2\nTopDieRows 1 0 19 10 2\nBottomDieMaxUtil 50\nTopDieMaxUtil 10\nDieSize 0 0 20 21\n";

/// The technologies of another: 98 bytes.
const BOOK: &str = "NumTechnologies 2\nTech TA 1\nLibCell MC1 4 10 1\nPin P1 1 2\n\
Tech TB 1\nLibCell MC1 5 10 1\nPin P1 2 3\n";

/// Its sections: 170 bytes.
const NINE: [&str; 9] = [
    "DieSize 0 0 20 20\n",
    "TopDieMaxUtil 10\n",
    "BottomDieMaxUtil 50\n",
    "TopDieRows 0 0 20 10 2\n",
    "BottomDieRows 0 0 20 10 2\n",
    "TopDieTech TA\n",
    "BottomDieTech TB\n",
    "TerminalSize 2 2\n",
    "TerminalSpacing 1\n",
];

/// Its instances and the head of its nets: 58 bytes.
const INSTS: &str = "NumInstances 2\nInst C1 MC1\nInst C2 MC1\nNumNets 1\nNet N1 2\n";

/// The pins of its net: 20 bytes.
const PINS: &str = "Pin C1/P1\nPin C2/P1\n";

/// Sections of which the bottom die's rows, told 41 bytes behind their beginning, leave the frame.
const OUTSIDE: &str =
    "DieSize 0 0 20 20\nTopDieRows 0 0 20 10 2\nBottomDieRows 0 0 20 10 3\nTopDieTech TA\n\
BottomDieTech TB\nTopDieMaxUtil 10\nBottomDieMaxUtil 50\nTerminalSize 2 2\nTerminalSpacing 1\n";

/// Sections of a top die of 40,000 rows: 172 bytes.
const MANY_ROWS: &str =
    "DieSize 0 0 3 40000\nTopDieRows 0 0 3 1 40000\nBottomDieRows 0 0 3 1 1\nTopDieTech TA\n\
BottomDieTech TB\nTopDieMaxUtil 10\nBottomDieMaxUtil 50\nTerminalSize 1 1\nTerminalSpacing 0\n";

/// A blockage that cuts each of these rows in two: 39 bytes.
const CUT: &str = "NumBlockages 1\nBlockage Top 1 0 2 40000";

/// Adds these parts to a text.
fn push_all(text: &mut String, parts: &[&str]) -> Result<(), AllocError> {
    for part in parts {
        text.push_str(part)?;
    }
    Ok(())
}

/// The parts of a text, one after the other.
pub fn joined(alloc: Global, parts: &[&str]) -> Result<String, AllocError> {
    let mut text = String::new(alloc);
    push_all(&mut text, parts)?;
    Ok(text)
}

/// The second input up to its sections, with more told behind so many of them, and its end.
fn text_with(alloc: Global, place: usize, told: &str, end: &str) -> Result<String, AllocError>
    requires { place ≤ 9 }
{
    let (before, behind) = NINE.split_at(place);
    let mut text = String::new(alloc);
    push_all(&mut text, &[BOOK])?;
    push_all(&mut text, before)?;
    push_all(&mut text, &[told])?;
    push_all(&mut text, behind)?;
    push_all(&mut text, &[end])?;
    Ok(text)
}

/// The problem of a text.
fn problem_of(alloc: Global, text: &str) -> Result<Problem, Fail> {
    let problem = read_problem(alloc, text.as_bytes()).ok().ok_or("an input")?;
    Ok(problem)
}

/// The cost of a terminal in a text.
fn cost_of(alloc: Global, text: &str) -> Option<u32> {
    match read_problem(alloc, text.as_bytes()) {
        Ok(problem) => {
            let cost = problem.dies().terminal().cost;
            std::mem::drop(problem);
            Some(cost)
        }
        Err(_) => None,
    }
}

#[test]
fn reads_sections_in_any_order(rt: HostRuntime) -> Result<(), Fail> {
    let text = joined(
        rt.alloc(),
        &[TECHS, SECTIONS, "NumInstances 0\r\nNumNets\t0"],
    )?;
    let problem = problem_of(rt.alloc(), &text)?;
    let dies = problem.dies();
    assert_eq!(&rt; dies.frame().ury, 21);
    assert_eq!(&rt; dies.spec(Die::Top).start_x, 1);
    assert_eq!(&rt; dies.spec(Die::Bottom).tech, TechId(1));
    assert_eq!(&rt; dies.terminal().size_y, 3);
    assert_eq!(&rt; dies.book().lib_named(b"MC2"), Some(LibId(1)));
    std::mem::drop(problem);
    Ok(())
}

#[test]
fn reads_instances_and_nets(rt: HostRuntime) -> Result<(), Fail> {
    for (insts, pins) in [
        (INSTS, PINS),
        (
            "NumInstances 2 Inst a/b MC1 Inst C1 MC1 NumNets 1 Net N1 2 ",
            "Pin a/b/P1 Pin a/b/P1",
        ),
    ] {
        let text = text_with(rt.alloc(), 9, insts, pins)?;
        let problem = problem_of(rt.alloc(), &text)?;
        assert_eq!(&rt; problem.cells(), 2, "{insts}");
        assert_eq!(&rt; problem.nets(), 1, "{insts}");
        assert_eq!(&rt; problem.conns(), 2, "{pins}");
        assert_eq!(&rt; problem.net_named(b"N1"), Some(NetId(0)), "{insts}");
        std::mem::drop(problem);
    }
    Ok(())
}

#[test]
fn reads_a_cost_among_the_sections_and_behind(rt: HostRuntime) -> Result<(), Fail> {
    for place in 0..10usize {
        let text = text_with(
            rt.alloc(),
            place,
            "TerminalCost 7\n",
            "NumInstances 0 NumNets 0",
        )?;
        assert_eq!(&rt; cost_of(rt.alloc(), &text), Some(7), "{place}");
    }
    let text = text_with(
        rt.alloc(),
        9,
        "NumBlockages 0\n",
        "NumInstances 0 NumNets 0",
    )?;
    assert_eq!(&rt; cost_of(rt.alloc(), &text), Some(0));
    Ok(())
}

#[test]
fn reads_a_blockage(rt: HostRuntime) -> Result<(), Fail> {
    let told = "NumBlockages 1\nBlockage Bottom 3 0 6 10\n";
    let text = text_with(rt.alloc(), 9, told, "NumInstances 0 NumNets 0")?;
    let problem = problem_of(rt.alloc(), &text)?;
    let segments = problem.dies().segments::<Bottom>();
    assert!(rt; segments.len() == 3);
    assert_eq!(&rt;
        segments[0],
        Segment {
            y: 0,
            start: 0,
            length: 3
        }
    );
    assert_eq!(&rt;
        segments[1],
        Segment {
            y: 0,
            start: 6,
            length: 14
        }
    );
    assert_eq!(&rt;
        segments[2],
        Segment {
            y: 10,
            start: 0,
            length: 20
        }
    );
    assert_eq!(&rt; problem.dies().blocks().len(), 1);
    std::mem::drop(problem);
    Ok(())
}

#[test]
fn tells_the_first_fault(rt: HostRuntime) -> Result<(), Fail> {
    for (place, told, end, at, kind) in [
        (1, "DieSize ", "", 116, Kind::Twice),
        (9, "DieSize", "", 268, Kind::Word),
        (9, "", "TerminalCost 1073741825", 281, Kind::Number),
        (9, "TerminalCost 7\n", "TerminalCost 7\n", 283, Kind::Twice),
        (0, "TerminalCost 7\n", "TerminalCost 7\n", 283, Kind::Twice),
        (8, "TerminalCost 7\nTerminalCost 7\n", "", 265, Kind::Twice),
        (9, "NumBlockages 0\n", "TerminalCost 7\n", 283, Kind::Word),
        (9, "NumBlockages 0\n", "NumBlockages 0\n", 283, Kind::Word),
        (9, "NumBlockages 1025", "", 281, Kind::Limit),
        (9, "NumBlockages 1\n", "NumInstances 0", 283, Kind::Word),
        (
            9,
            "NumBlockages 1\n",
            "Blockage Left 0 0 1 1",
            292,
            Kind::Word,
        ),
        (
            9,
            "NumBlockages 1\n",
            "Blockage Top 4 0 4 9",
            300,
            Kind::Range,
        ),
        (9, "NumInstances 262145", "", 281, Kind::Limit),
        (9, "NumInstances 2\n", "Inst C1 MC2", 291, Kind::Unknown),
        (
            9,
            "NumInstances 2\n",
            "Inst C1 MC1\nInst C1",
            300,
            Kind::Twice,
        ),
        (9, "NumInstances 1\n", "Inst C\u{e8}", 288, Kind::Name),
        (9, INSTS, "Pin C1P1\n", 330, Kind::Name),
        (9, INSTS, "Pin C9/P1\n", 330, Kind::Unknown),
        (9, INSTS, "Pin C1/P2\n", 330, Kind::Unknown),
        (9, INSTS, "Pin C1/P1\n", 336, Kind::Ended),
        (9, INSTS, "Pin C1/P1\nPin C2/P1\nx", 346, Kind::Trailing),
    ] {
        assert!(rt; place <= 9);
        let text = text_with(rt.alloc(), place, told, end)?;
        let fault = read_problem(rt.alloc(), text.as_bytes()).err();
        assert_eq!(&rt; fault, Some(TextFault::Wrong { at, kind }), "{told}{end}");
    }
    Ok(())
}

#[test]
fn tells_rows_and_segments_before_the_next_token(rt: HostRuntime) -> Result<(), Fail> {
    for (sections, told, end, at, kind) in [
        (OUTSIDE, "", "", 139, Kind::Rows),
        (OUTSIDE, "TerminalCost 1073741825", "", 139, Kind::Rows),
        (MANY_ROWS, CUT, "", 270, Kind::Limit),
        (MANY_ROWS, CUT, " TerminalCost", 270, Kind::Limit),
    ] {
        let text = joined(rt.alloc(), &[BOOK, sections, told, end])?;
        let fault = read_problem(rt.alloc(), text.as_bytes()).err();
        assert_eq!(&rt; fault, Some(TextFault::Wrong { at, kind }), "{told}{end}");
    }
    Ok(())
}
