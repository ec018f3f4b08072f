//! The technologies: both have library cells of the same names and pins, in one of them narrower and lower than in the other.

ghost use Rattle.std.specs.Prelude.{◌≡◌, ◌∷◌, ◌++◌, ◌<◌, ◌≤◌, [], IfOk, codes};
ghost use Rattle.fp_contest_in.specs.PrintedText.{pin_line, pin_lines, lib_lines, libs_lines, tech_lines, techs_lines};
ghost use Rattle.fp_gen.specs.MakeText.{made_pin, made_pins, made_lib, made_libs, made_tech, made_techs};
ghost use Rattle.fp_gen.specs.Written.{Adds};

use crate::lines::{push_line, push_numbered, push_text};
use std::alloc::AllocError;

/// The pins of a library cell.
const PINS: u32 = 4;

/// The library cells of a technology.
const LIBS: u32 = 8;

/// What the library cells of a technology have in common.
#[derive(Clone, Copy, Debug, PartialEq, Eq)]
struct Shape {
    /// The width of the narrowest.
    narrowest: u32,
    /// The height of each.
    height: u32,
    /// How high the lowest pin stands.
    lift: u32,
}

/// The library cells of the top die's technology.
const LOW: Shape = Shape {
    narrowest: 2,
    height: 10,
    lift: 0,
};

/// Those of the bottom die's.
const HIGH: Shape = Shape {
    narrowest: 3,
    height: 12,
    lift: 1,
};

/// Adds a pin of a library cell.
fn push_pin(text: &mut Vec<u8>, width: u32, lift: u32, pin: u32) -> Result<(), AllocError>
    requires wide { 1 ≤ width }
    requires narrow { width ≤ 10 }
    requires low { lift ≤ 1 }
    requires few { pin < 4 }
    ensures { IfOk result (λ _. Adds (pin_line (made_pin width lift pin)) text.old.items text.new.items) }
{
    push_numbered(text, b"Pin P", pin)?;
    push_numbered(text, b" ", pin * (width - 1) / 3)?;
    push_numbered(text, b" ", 3 * pin + lift)?;
    push_text(text, b"\n")
}

/// Adds the pins of a library cell.
fn push_pins(text: &mut Vec<u8>, width: u32, lift: u32) -> Result<(), AllocError>
    requires wide { 1 ≤ width }
    requires narrow { width ≤ 10 }
    requires low { lift ≤ 1 }
    ensures { IfOk result (λ _. Adds (pin_lines (made_pins width lift)) text.old.items text.new.items) }
{
    for pin in 0..PINS {
        push_pin(text, width, lift, pin)?;
    }
    Ok(())
}

/// Adds a library cell with its pins.
fn push_lib(text: &mut Vec<u8>, shape: Shape, lib: u32) -> Result<(), AllocError>
    requires some { 1 ≤ shape.narrowest }
    requires narrow { shape.narrowest ≤ 3 }
    requires low { shape.lift ≤ 1 }
    requires few { lib < 8 }
    ensures { IfOk result (λ _. Adds (lib_lines (made_lib shape.narrowest shape.height shape.lift lib)) text.old.items text.new.items) }
{
    let width = shape.narrowest + lib;
    push_numbered(text, b"LibCell L", lib)?;
    push_numbered(text, b" ", width)?;
    push_numbered(text, b" ", shape.height)?;
    push_numbered(text, b" ", PINS)?;
    push_text(text, b"\n")?;
    push_pins(text, width, shape.lift)
}

/// Adds the library cells of a technology.
fn push_libs(text: &mut Vec<u8>, shape: Shape) -> Result<(), AllocError>
    requires some { 1 ≤ shape.narrowest }
    requires narrow { shape.narrowest ≤ 3 }
    requires low { shape.lift ≤ 1 }
    ensures { IfOk result (λ _. Adds (libs_lines (made_libs shape.narrowest shape.height shape.lift)) text.old.items text.new.items) }
{
    for lib in 0..LIBS {
        push_lib(text, shape, lib)?;
    }
    Ok(())
}

/// Adds a technology.
fn push_tech(text: &mut Vec<u8>, name: &[u8], shape: Shape) -> Result<(), AllocError>
    requires some { 1 ≤ shape.narrowest }
    requires narrow { shape.narrowest ≤ 3 }
    requires low { shape.lift ≤ 1 }
    ensures { IfOk result (λ _. Adds (tech_lines (made_tech name.now shape.narrowest shape.height shape.lift)) text.old.items text.new.items) }
{
    push_text(text, b"Tech ")?;
    push_text(text, name)?;
    push_numbered(text, b" ", LIBS)?;
    push_text(text, b"\n")?;
    push_libs(text, shape)
}

/// Adds the two technologies.
pub fn push_techs(text: &mut Vec<u8>) -> Result<(), AllocError>
    ensures { IfOk result (λ _. Adds (techs_lines made_techs) text.old.items text.new.items) }
{
    push_line(text, b"NumTechnologies", &[2])?;
    push_tech(text, b"TA", LOW)?;
    push_tech(text, b"TB", HIGH)
}
