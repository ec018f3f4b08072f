//! The library of one technology: its cells, which are found by their numbers, and their pins, found by their names.

ghost use Rattle.std.specs.Prelude.{◌≡◌, ◌+◌, ◌<◌, ◌++◌, ◌∷◌, [], None, Some, ◌==◌, List, length, map, find, is_some, slice_get, OnOk, OnErr, IsSome, IfSome, IsTrue, nat_eq};
ghost use Rattle.std.specs.List.{IsDistinct};
ghost use Rattle.std.specs.Option.{option_map, option_copied};
ghost use Rattle.std.specs.Str.{bytes_eq};
ghost use Rattle.fp_tech.specs.Book.{Lib, Pin, place_of, pin_names, names_of, more_pins, pins_refusal, Adds};
ghost use Rattle.fp_tech.specs.KeptBook.{id_of, pins_at};

use crate::fault::BuildFault;
use fp_base::LibId;
use indexmap::{IndexMap, IndexSet};
use std::alloc::{AllocError, Global};
use std::marker::Model;

/// The most pins of a library cell.
const PINS: usize = 1024;

/// A library cell.
#[derive(Drop)]
pub struct LibCell {
    id: LibId,
    width: u32,
    height: u32,
    pins: IndexMap<Vec<u8>, (u32, u32)>,
}

impl Model for LibCell {
    ghost use Rattle.std.specs.Prelude.{map};
    ghost use Rattle.fp_tech.specs.Book.{Lib};
    ghost use Rattle.fp_tech.specs.KeptBook.{pin_of};

    ghost Value = { Lib };

    ghost view = { λ l. record { id = l.id.0; width = l.width; height = l.height; pins = map pin_of l.pins.entries } };
}

impl LibCell {
    pub fn new(alloc: Global, id: LibId, width: u32, height: u32) -> LibCell
        ensures { result ≡ record { id = id.0; width = width; height = height; pins = [] } }
    {
        LibCell {
            id,
            width,
            height,
            pins: IndexMap::new(alloc),
        }
    }

    pub fn id(&self) -> LibId
        ensures { result.0 ≡ self.now.id }
    {
        self.id
    }

    /// Width and height.
    pub fn size(&self) -> (u32, u32)
        ensures { result ≡ (self.now.width, self.now.height) }
    {
        (self.width, self.height)
    }

    /// The number of pins.
    pub fn pins(&self) -> usize
        ensures { result ≡ length self.now.pins }
    {
        self.pins.len()
    }

    pub fn pin_name(&self, place: usize) -> &[u8]
        requires { place < length self.now.pins }
        ensures { slice_get (names_of self.now.pins) place ≡ Some result.now }
    {
        self.pins.get_index(place).unwrap().0.as_slice()
    }

    /// A pin's offset.
    pub fn offset(&self, place: usize) -> (u32, u32)
        requires { place < length self.now.pins }
        ensures { option_map (λ pin. (pin.x, pin.y)) (slice_get self.now.pins place) ≡ Some result }
    {
        *self.pins.get_index(place).unwrap().1
    }

    /// The number of the pin of that name.
    pub fn pin_named(&self, name: &[u8]) -> Option<usize>
        ensures place { result ≡ place_of name.now (names_of self.now.pins) }
        ensures within { IfSome result (λ p. p < length self.now.pins) }
    {
        self.pins.get_index_of(name)
    }

    /// The number of the pin of that name, which is looked for at the number `guess` first: it costs no hashing there.
    pub fn pin_named_near(&self, guess: usize, name: &[u8]) -> Option<usize>
        requires { IsDistinct bytes_eq (names_of self.now.pins) }
        ensures place { result ≡ place_of name.now (names_of self.now.pins) }
        ensures within { IfSome result (λ p. p < length self.now.pins) }
    {
        if guess < self.pins() && self.pin_name(guess) == name {
            Some(guess)
        } else {
            self.pin_named(name)
        }
    }

    pub fn add_pin(&mut self, alloc: Global, name: &[u8], x: u32, y: u32) -> Result<(), BuildFault>
        ensures { Adds (pins_refusal self.old.pins name.now) tt self.old
            (record self.old { pins = self.old.pins ++ record { name = name.now; x = x; y = y } ∷ [] })
            result self.new }
    {
        if self.pins() >= PINS {
            return Err(BuildFault::Limit);
        }
        if self.pin_named(name).is_some() {
            return Err(BuildFault::Twice);
        }
        let name = Vec::from_slice(alloc, name)?;
        self.pins.insert(name, (x, y))?;
        Ok(())
    }
}

/// The library cells of one technology.
#[derive(Drop)]
pub struct Library {
    ids: IndexSet<LibId>,
    cells: Vec<LibCell>,
}

impl Model for Library {
    ghost use Rattle.std.specs.Prelude.{List};
    ghost use Rattle.fp_tech.specs.Book.{Lib};
    ghost use Rattle.fp_tech.specs.KeptBook.{AreIds};

    ghost Value = { List Lib };

    ghost view = { λ l. l.cells.items };

    ghost invariant = { λ l. AreIds l.ids.keys l.cells.items };
}

impl Library {
    pub fn new(alloc: Global) -> Library
        ensures { result ≡ [] }
    {
        Library {
            ids: IndexSet::new(alloc),
            cells: Vec::new(alloc),
        }
    }

    pub fn len(&self) -> usize
        ensures { result ≡ length self.now }
    {
        self.cells.len()
    }

    /// The numbers of the cells, in the order of adding.
    pub fn ids(&self) -> &[LibId]
        ensures { result.now ≡ map id_of self.now }
    {
        self.ids.as_slice()
    }

    /// The cell of that number.
    pub fn cell(&self, id: LibId) -> Option<&LibCell>
        ensures { option_copied result ≡ find (λ lib. lib.id == id.0) self.now }
    {
        match self.ids.get_index_of(&id) {
            Some(place) => Some(&self.cells[place]),
            None => None,
        }
    }

    /// Adds a cell whose number is not there.
    pub fn push(&mut self, cell: LibCell) -> Result<(), AllocError>
        requires { find (λ lib. lib.id == cell.id) self.old ≡ None }
        ensures ok { OnOk result (self.new ≡ self.old ++ cell ∷ []) }
        ensures err { OnErr result (self.new ≡ self.old) }
    {
        self.ids.insert(cell.id())?;
        if self.cells.push(cell).is_err() {
            self.ids.truncate(self.cells.len());
            return Err(AllocError);
        }
        Ok(())
    }

    /// Adds a pin to the cell of that number.
    pub fn add_pin(
        &mut self,
        alloc: Global,
        id: LibId,
        name: &[u8],
        x: u32,
        y: u32,
    ) -> Result<(), BuildFault>
        requires there { IsSome (find (λ lib. lib.id == id.0) self.old) }
        requires apart { IsDistinct nat_eq (map (λ lib. lib.id) self.old) }
        ensures { Adds (pins_refusal (pins_at self.old id.0) name.now) tt self.old
            (map (more_pins id.0 (record { name = name.now; x = x; y = y })) self.old)
            result self.new }
    {
        let place = self.ids.get_index_of(&id).unwrap();
        let cell = &mut self.cells[place];
        cell.add_pin(alloc, name, x, y)
    }
}
