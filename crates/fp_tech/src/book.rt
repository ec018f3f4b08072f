//! The book of technologies: their library cells with sizes and pins, each found by its name.

ghost use Rattle.std.specs.Prelude.{◌≡◌, ◌<◌, ◌≤◌, ◌^◌, ℕ, None, Some, length, map, slice_get, IsTrue, MatchOption, pos, ◌≤ℤ◌};
ghost use Rattle.std.specs.Option.{option_map};
ghost use Rattle.fp_tech.specs.Book.{no_techs, place_of, tech_names, libs_of, lib_ids, lib_in, has, has_name, pins_in, id_for, with_tech, with_lib, with_pin, tech_refusal, lib_refusal, pin_refusal, Adds, size_of, offset_of, names_of, IsPinFound, IsLib, IsBook};

use crate::fault::BuildFault;
use crate::library::{LibCell, Library};
use crate::names::Names;
use fp_base::{LibId, Point, TechId};
use std::alloc::Global;
use std::marker::Model;

/// The most technologies.
const TECHS: u32 = 16;

/// The most library cells of a technology.
const LIBS: usize = 4096;

/// Technologies with their library cells, each in the order of adding. At most 16 technologies, 4,096 library cells
/// of each, 1,024 pins of each. A library cell's number is that of its name over all technologies, by first appearance.
#[derive(Drop)]
pub struct TechBook {
    alloc: Global,
    lib_names: Names,
    tech_names: Names,
    techs: Vec<Library>,
}

impl Model for TechBook {
    ghost use Rattle.fp_tech.specs.Book.{Book};
    ghost use Rattle.fp_tech.specs.KeptBook.{book_of, IsKeptBook};

    ghost Value = { Book };

    ghost view = { λ b. book_of b.lib_names b.tech_names b.techs.items };

    ghost invariant = { λ b. IsKeptBook b.lib_names b.tech_names b.techs.items };
}

impl TechBook {
    /// A book with no technologies, which takes no memory.
    pub fn new(alloc: Global) -> TechBook
        ensures { result ≡ no_techs }
    {
        TechBook {
            alloc,
            lib_names: Names::new(alloc),
            tech_names: Names::new(alloc),
            techs: Vec::new(alloc),
        }
    }

    /// The number of technologies, at most 16.
    pub fn techs(&self) -> u32
        ensures count { result ≡ length self.now.techs }
        ensures book { IsBook self.now }
    {
        self.techs.len() as u32
    }

    /// Adds a technology. `Limit` exactly at 16 technologies, else `Twice` exactly where the name is there.
    pub fn add_tech(&mut self, name: &[u8]) -> Result<TechId, BuildFault>
        ensures { Adds (tech_refusal self.old name.now) (record { 0 = length self.old.techs }) self.old
            (with_tech self.old name.now) result self.new }
    {
        let count = self.techs();
        if count >= TECHS {
            return Err(BuildFault::Limit);
        }
        if self.tech_named(name).is_some() {
            return Err(BuildFault::Twice);
        }
        self.tech_names.push(self.alloc, name)?;
        if self.techs.push(Library::new(self.alloc)).is_err() {
            self.tech_names.truncate(count as usize);
            return Err(BuildFault::Memory);
        }
        Ok(TechId(count))
    }

    /// Adds a library cell to a technology. Its sizes are from 1 to 2^30. `Limit` exactly at 4,096 library cells of
    /// that technology, else `Twice` exactly where it has the name.
    pub fn add_lib(
        &mut self,
        tech: TechId,
        name: &[u8],
        width: u32,
        height: u32,
    ) -> Result<LibId, BuildFault>
        requires tech { tech.0 < length self.old.techs }
        requires some_width { 1 ≤ width }
        requires width { width ≤ 2 ^ 30 }
        requires some_height { 1 ≤ height }
        requires height { height ≤ 2 ^ 30 }
        ensures { Adds (lib_refusal self.old tech.0 name.now) (record { 0 = id_for self.old name.now }) self.old
            (with_lib self.old tech.0 name.now width height) result self.new }
    {
        if self.libs_of(tech).len() >= LIBS {
            return Err(BuildFault::Limit);
        }
        if self.has_name(tech, name) {
            return Err(BuildFault::Twice);
        }
        let count = self.lib_names.len();
        let place = self.lib_names.place_or_push(self.alloc, name)?;
        let id = LibId(place as u32);
        let library = &mut self.techs[tech.0 as usize];
        if library
            .push(LibCell::new(self.alloc, id, width, height))
            .is_err()
        {
            self.lib_names.truncate(count);
            return Err(BuildFault::Memory);
        }
        Ok(id)
    }

    /// Adds a pin to a library cell that the technology has, at an offset of at most 2^30. `Limit` exactly at 1,024
    /// pins, else `Twice` exactly where the library cell has a pin of that name.
    pub fn add_pin(
        &mut self,
        tech: TechId,
        lib: LibId,
        name: &[u8],
        x: u32,
        y: u32,
    ) -> Result<(), BuildFault>
        requires there { IsTrue (has self.old tech.0 lib.0) }
        requires x { x ≤ 2 ^ 30 }
        requires y { y ≤ 2 ^ 30 }
        ensures { Adds (pin_refusal self.old tech.0 lib.0 name.now) tt self.old
            (with_pin self.old tech.0 lib.0 (record { name = name.now; x = x; y = y })) result self.new }
    {
        let library = &mut self.techs[tech.0 as usize];
        library.add_pin(self.alloc, lib, name, x, y)
    }

    /// The name of a technology.
    pub fn tech_name(&self, tech: TechId) -> &[u8]
        requires { tech.0 < length self.now.techs }
        ensures { slice_get (tech_names self.now) tech.0 ≡ Some result.now }
    {
        self.tech_names.name(tech.0 as usize)
    }

    /// The technology of that name.
    pub fn tech_named(&self, name: &[u8]) -> Option<TechId>
        ensures { result ≡ option_map (λ tech. record { 0 = tech }) (place_of name.now (tech_names self.now)) }
    {
        let place = self.tech_names.place(name)?;
        Some(TechId(place as u32))
    }

    fn library(&self, tech: TechId) -> &Library
        requires { tech.0 < length self.now.techs }
        ensures libs { result.now ≡ libs_of self.now tech.0 }
        ensures book { IsBook self.now }
    {
        &self.techs[tech.0 as usize]
    }

    /// The library cells of a technology, in the order of adding.
    pub fn libs_of(&self, tech: TechId) -> &[LibId]
        requires { tech.0 < length self.now.techs }
        ensures { result.now ≡ map (λ id. record { 0 = id }) (lib_ids self.now tech.0) }
    {
        self.library(tech).ids()
    }

    /// The name of a library cell.
    pub fn lib_name(&self, lib: LibId) -> &[u8]
        requires { lib.0 < length self.now.names }
        ensures { slice_get self.now.names lib.0 ≡ Some result.now }
    {
        self.lib_names.name(lib.0 as usize)
    }

    /// The number of the library cells of that name.
    pub fn lib_named(&self, name: &[u8]) -> Option<LibId>
        ensures { result ≡ option_map (λ lib. record { 0 = lib }) (place_of name.now self.now.names) }
    {
        let place = self.lib_names.place(name)?;
        Some(LibId(place as u32))
    }

    #[tactic(auto, unfolding(crate::specs::Book::lib_in))]
    /// Whether a technology has that library cell.
    pub fn has(&self, tech: TechId, lib: LibId) -> bool
        requires { tech.0 < length self.now.techs }
        ensures { result ≡ has self.now tech.0 lib.0 }
    {
        self.library(tech).cell(lib).is_some()
    }

    fn has_name(&self, tech: TechId, name: &[u8]) -> bool
        requires { tech.0 < length self.now.techs }
        ensures { result ≡ has_name self.now tech.0 name.now }
    {
        match self.lib_named(name) {
            Some(lib) => self.has(tech, lib),
            None => false,
        }
    }

    #[tactic(auto, using(crate::proofs::BookLemmas::has_in_range), unfolding(crate::specs::Book::lib_in))]
    fn cell(&self, tech: TechId, lib: LibId) -> &LibCell
        requires { IsTrue (has self.now tech.0 lib.0) }
        ensures cell { lib_in self.now tech.0 lib.0 ≡ Some result.now }
        ensures pins { pins_in self.now tech.0 lib.0 ≡ result.now.pins }
        ensures within { IsLib (length self.now.names) result.now }
    {
        self.library(tech).cell(lib).unwrap()
    }

    /// Width and height of a library cell that the technology has.
    pub fn size(&self, tech: TechId, lib: LibId) -> (u32, u32)
        requires { IsTrue (has self.now tech.0 lib.0) }
        ensures size { option_map size_of (lib_in self.now tech.0 lib.0) ≡ Some result }
        ensures width { (1 ≤ result.0) × (result.0 ≤ 2 ^ 30) }
        ensures height { (1 ≤ result.1) × (result.1 ≤ 2 ^ 30) }
    {
        self.cell(tech, lib).size()
    }

    /// The number of pins of a library cell that the technology has. They are numbered from 0 in the order of adding.
    pub fn pins_of(&self, tech: TechId, lib: LibId) -> u32
        requires { IsTrue (has self.now tech.0 lib.0) }
        ensures count { result ≡ length (pins_in self.now tech.0 lib.0) }
        ensures few { result ≤ 1024 }
    {
        self.cell(tech, lib).pins() as u32
    }

    /// The name of a pin.
    pub fn pin_name(&self, tech: TechId, lib: LibId, pin: u32) -> &[u8]
        requires there { IsTrue (has self.now tech.0 lib.0) }
        requires pin { pin < length (pins_in self.now tech.0 lib.0) }
        ensures { slice_get (names_of (pins_in self.now tech.0 lib.0)) pin ≡ Some result.now }
    {
        self.cell(tech, lib).pin_name(pin as usize)
    }

    /// The number of the pin of that name.
    pub fn pin_named(&self, tech: TechId, lib: LibId, name: &[u8]) -> Option<u32>
        requires { IsTrue (has self.now tech.0 lib.0) }
        ensures { result ≡ place_of name.now (names_of (pins_in self.now tech.0 lib.0)) }
    {
        let place = self.cell(tech, lib).pin_named(name)?;
        Some(place as u32)
    }

    /// The pin of that name: its number, and its offset from its cell's lower left corner. It is looked for at the number
    /// `guess` first.
    pub fn find_pin(
        &self,
        tech: TechId,
        lib: LibId,
        guess: u32,
        name: &[u8],
    ) -> Option<(u32, Point)>
        requires { IsTrue (has self.now tech.0 lib.0) }
        ensures { MatchOption result (place_of name.now (names_of (pins_in self.now tech.0 lib.0)) ≡ None)
            (IsPinFound (pins_in self.now tech.0 lib.0) name.now) }
    {
        let cell = self.cell(tech, lib);
        let place = cell.pin_named_near(guess as usize, name)?;
        Some((place as u32, point(cell.offset(place))))
    }

    /// The offset of a pin from its cell's lower left corner.
    pub fn pin_at(&self, tech: TechId, lib: LibId, pin: u32) -> Point
        requires there { IsTrue (has self.now tech.0 lib.0) }
        requires pin { pin < length (pins_in self.now tech.0 lib.0) }
        ensures offset { option_map offset_of (slice_get (pins_in self.now tech.0 lib.0) pin) ≡ Some result }
        ensures x { (pos 0 ≤ℤ result.x) × (result.x ≤ℤ pos (2 ^ 30)) }
        ensures y { (pos 0 ≤ℤ result.y) × (result.y ≤ℤ pos (2 ^ 30)) }
    {
        point(self.cell(tech, lib).offset(pin as usize))
    }
}

// An offset as a point.
fn point(at: (u32, u32)) -> Point
    ensures { result ≡ record { x = pos at.0; y = pos at.1 } }
{
    Point {
        x: i64::from(at.0),
        y: i64::from(at.1),
    }
}

#[cfg(test)]
mod tests {
    use super::*;
    use std::process::Abort;
    use std::test::Fail;

    // Adds a library cell of 3 by 5 with one pin, and looks both up again.
    fn add_inverter(rt: &impl Abort, book: &mut TechBook, tech: TechId) -> Result<LibId, Fail> {
        assert!(rt; tech.0 < book.techs());
        let lib = book.add_lib(tech, b"INV", 3, 5)?;
        assert!(rt; tech.0 < book.techs());
        assert!(rt; book.has(tech, lib));
        book.add_pin(tech, lib, b"Y", 1, 2)?;
        Ok(lib)
    }

    fn expect_inverter(rt: &impl Abort, book: &TechBook, tech: TechId, lib: LibId) {
        assert!(rt; tech.0 < book.techs());
        assert!(rt; book.has(tech, lib));
        assert_eq!(rt; book.size(tech, lib), (3, 5));
        assert_eq!(rt; book.pins_of(tech, lib), 1);
        assert_eq!(rt; book.pin_named(tech, lib, b"Y"), Some(0));
    }

    #[test]
    fn technologies(rt: HostRuntime) -> Result<(), Fail> {
        let mut book = TechBook::new(rt.alloc());
        book.add_tech(b"A")?;
        assert_eq!(&rt; book.add_tech(b"A").err(), Some(BuildFault::Twice));
        for letter in b'B'..b'Q' {
            book.add_tech(&[letter])?;
        }
        assert_eq!(&rt; book.add_tech(b"Z").err(), Some(BuildFault::Limit));
        assert_eq!(&rt; book.tech_named(b"C"), Some(TechId(2)));
        assert_eq!(&rt; book.techs(), 16);
        Ok(())
    }

    #[test]
    fn library_cells(rt: HostRuntime) -> Result<(), Fail> {
        let mut book = TechBook::new(rt.alloc());
        let first = book.add_tech(b"TA")?;
        let second = book.add_tech(b"TB")?;
        let lib = add_inverter(&rt, &mut book, first)?;
        assert_eq!(&rt; add_inverter(&rt, &mut book, second)?, lib);
        expect_inverter(&rt, &book, second, lib);
        Ok(())
    }
}
