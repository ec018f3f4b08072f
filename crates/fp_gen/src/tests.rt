//! The text that a number makes.

use crate::make;
use std::test::Fail;

/// The end of the text of 42 with one cell: its library cell, and the two pins of its net, as PCG32 draws them.
const LAST_LINES: &str =
    "TerminalSpacing 1\nNumInstances 1\nInst C0 L7\nNumNets 1\nNet N0 2\nPin C0/P3\nPin C0/P1\n";

#[test]
fn the_words_of_42_make_one_cell(rt: HostRuntime) -> Result<(), Fail> {
    for (percent, bytes) in [(80, 1274), (2, 1273)] {
        let text = make(rt.alloc(), 42, 1, percent)?;
        assert!(&rt; text.len() == bytes, "{percent}");
        assert!(&rt; text.ends_with(LAST_LINES.as_bytes()), "{percent}");
    }
    Ok(())
}
