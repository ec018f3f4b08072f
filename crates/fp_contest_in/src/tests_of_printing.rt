//! What is printed, byte by byte.

use crate::tests::joined;
use crate::{print_problem, read_problem};
use fp_base::MemFolder;
use fp_netlist::Problem;
use std::alloc::Global;
use std::test::Fail;

/// The technologies of an input.
const TECHS: &str = "NumTechnologies 2\nTech TA 1\nLibCell MC1 4 10 1\nPin P1 1 2\n\
Tech TB 1\nLibCell MC1 5 10 1\nPin P1 2 3\n";

/// Its sections in the usual order.
const SECTIONS: &str =
    "DieSize 0 0 20 20\nTopDieMaxUtil 10\nBottomDieMaxUtil 50\nTopDieRows 0 0 20 10 2\n\
BottomDieRows 0 0 20 10 2\nTopDieTech TA\nBottomDieTech TB\nTerminalSize 2 2\nTerminalSpacing 1\n";

/// Its instances and its net.
const CELLS: &str =
    "NumInstances 2\nInst C1 MC1\nInst C2 MC1\nNumNets 1\nNet N1 2\nPin C1/P1\nPin C2/P1\n";

/// The same sections from the last to the first, with other blanks and leading zeros.
const LOOSE: &str =
    "\r\n\tTerminalSpacing 1\r\nTerminalSize\t2 2\r\nBottomDieTech TB\r\nTopDieTech TA\r\n\
BottomDieRows 0 0 20 10 2\r\nTopDieRows 0 0\t20 10 2\r\nBottomDieMaxUtil 050\r\nTopDieMaxUtil  10 DieSize 0 0 20 20\r\n\r\n";

/// Whether a problem is printed as this text.
fn is_printed(alloc: Global, problem: &Problem, text: &[u8]) -> Result<bool, Fail> {
    let mut folder = MemFolder::new(alloc, &[], 1, 500)?;
    let answer = print_problem(&mut folder, "input", problem);
    Ok(answer.is_ok() && folder.file("input") == Some(text))
}

/// Whether the problem of a text is printed as another text.
fn prints(alloc: Global, parts: &[&str], canonical: &[&str]) -> Result<bool, Fail> {
    let text = joined(alloc, parts)?;
    let canonical = joined(alloc, canonical)?;
    let problem = read_problem(alloc, text.as_bytes()).ok().ok_or("an input")?;
    let answer = is_printed(alloc, &problem, canonical.as_bytes());
    std::mem::drop(problem);
    answer
}

#[test]
fn prints_the_canonical_text(rt: HostRuntime) -> Result<(), Fail> {
    for sections in [SECTIONS, LOOSE] {
        assert!(rt;
            prints(
                rt.alloc(),
                &[TECHS, sections, CELLS],
                &[TECHS, SECTIONS, CELLS]
            )?
        );
    }
    Ok(())
}

#[test]
fn a_cost_follows_the_sections(rt: HostRuntime) -> Result<(), Fail> {
    for (before, behind, canonical) in [
        ("TerminalCost 7\n", "", "TerminalCost 7\n"),
        ("", "TerminalCost 007 ", "TerminalCost 7\n"),
        ("TerminalCost 0\n", "", ""),
    ] {
        let parts = [TECHS, before, LOOSE, behind, CELLS];
        assert!(rt; prints(rt.alloc(), &parts, &[TECHS, SECTIONS, canonical, CELLS])?);
    }
    Ok(())
}

#[test]
fn blockages_follow_the_cost(rt: HostRuntime) -> Result<(), Fail> {
    for (behind, canonical) in [
        ("NumBlockages 0\n", ""),
        (
            "TerminalCost 1 NumBlockages 2 Blockage Bottom 3 0 6 10 Blockage Top 0 0 99 1 ",
            "TerminalCost 1\nNumBlockages 2\nBlockage Bottom 3 0 6 10\nBlockage Top 0 0 99 1\n",
        ),
    ] {
        let parts = [TECHS, SECTIONS, behind, CELLS];
        assert!(rt; prints(rt.alloc(), &parts, &[TECHS, SECTIONS, canonical, CELLS])?);
    }
    Ok(())
}
