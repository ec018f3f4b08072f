//! The nine sections between the technologies and the instances, and the cost of a terminal that may stand among them.

ghost use Rattle.std.specs.Prelude.{◌≡◌, IsTrue, Option, Some, None};
ghost use Rattle.fp_contest_in.specs.Statements.{section_of, has_section, die_found, set_die, has_nine_die, has_nine, die_spec, setup_of};

use fp_base::{Die, TechId};
use fp_tech::{DieSpec, Frame, TermSpec};

/// One of the nine sections, which an input has once each, in any order; or the cost of a terminal, our own addition,
/// which it may have once among them or behind.
#[derive(Clone, Copy, Debug, PartialEq, Eq)]
pub enum Section {
    DieSize,
    MaxUtil(Die),
    Rows(Die),
    Tech(Die),
    TerminalSize,
    TerminalSpacing,
    TerminalCost,
}

/// A die's rows, and the place of their keyword.
#[derive(Clone, Copy, Debug, PartialEq, Eq)]
pub struct RowsFound {
    pub at: u64,
    pub start_x: u32,
    pub start_y: u32,
    pub length: u32,
    pub height: u32,
    pub repeat: u32,
}

/// What the sections of one die that were read said.
#[derive(Clone, Copy, Debug, PartialEq, Eq)]
pub struct DieFound {
    pub percent: Option<u32>,
    pub rows: Option<RowsFound>,
    pub tech: Option<TechId>,
}

impl DieFound {
    ghost use Rattle.fp_contest_in.specs.Ranges.{IsCompleteDie};

    /// The die, once its three sections were read.
    fn spec(&self) -> DieSpec
        requires { IsCompleteDie self.now }
        ensures { result ≡ die_spec self.now }
    {
        let rows = self.rows.unwrap();
        DieSpec {
            percent: self.percent.unwrap(),
            tech: self.tech.unwrap(),
            start_x: rows.start_x,
            start_y: rows.start_y,
            length: rows.length,
            height: rows.height,
            repeat: rows.repeat,
        }
    }

    /// Whether its three sections were read.
    fn is_whole(&self) -> bool
        ensures { result ≡ has_nine_die self.now }
    {
        self.percent.is_some() && self.rows.is_some() && self.tech.is_some()
    }

    /// No section was read.
    pub const NONE: DieFound = DieFound {
        percent: None,
        rows: None,
        tech: None,
    };
}

/// What the sections that were read said.
#[derive(Clone, Copy, Debug, PartialEq, Eq)]
pub struct Found {
    pub frame: Option<Frame>,
    pub top: DieFound,
    pub bottom: DieFound,
    pub size: Option<(u32, u32)>,
    pub spacing: Option<u32>,
    pub cost: Option<u32>,
}

/// What the sections say together; without a cost it is 0. A die's technology is given by its number in file order.
#[derive(Clone, Copy, Debug, PartialEq, Eq)]
pub struct Setup {
    pub frame: Frame,
    pub top: DieSpec,
    pub bottom: DieSpec,
    pub terminal: TermSpec,
}

/// The section that a keyword begins, if any.
#[tactic(auto, unfolding(crate::specs::Statements::section_of))]
pub fn section_of(word: &[u8]) -> Option<Section>
    ensures { result ≡ section_of word.now }
{
    if word == b"DieSize".as_slice() {
        Some(Section::DieSize)
    } else if word == b"TopDieMaxUtil".as_slice() {
        Some(Section::MaxUtil(Die::Top))
    } else if word == b"BottomDieMaxUtil".as_slice() {
        Some(Section::MaxUtil(Die::Bottom))
    } else if word == b"TopDieRows".as_slice() {
        Some(Section::Rows(Die::Top))
    } else if word == b"BottomDieRows".as_slice() {
        Some(Section::Rows(Die::Bottom))
    } else if word == b"TopDieTech".as_slice() {
        Some(Section::Tech(Die::Top))
    } else if word == b"BottomDieTech".as_slice() {
        Some(Section::Tech(Die::Bottom))
    } else if word == b"TerminalSize".as_slice() {
        Some(Section::TerminalSize)
    } else if word == b"TerminalSpacing".as_slice() {
        Some(Section::TerminalSpacing)
    } else if word == b"TerminalCost".as_slice() {
        Some(Section::TerminalCost)
    } else {
        None
    }
}

impl Found {
    ghost use Rattle.fp_contest_in.specs.Ranges.{IsComplete};

    /// No section was read.
    pub const NONE: Found = Found {
        frame: None,
        top: DieFound::NONE,
        bottom: DieFound::NONE,
        size: None,
        spacing: None,
        cost: None,
    };

    /// What the sections of a die that were read said.
    pub fn die(&self, die: Die) -> DieFound
        ensures { result ≡ die_found self.now die }
    {
        match die {
            Die::Top => self.top,
            Die::Bottom => self.bottom,
        }
    }

    /// The same with other words for a die.
    fn with_die(self, die: Die, found: DieFound) -> Found
        ensures { result ≡ set_die self die found }
    {
        match die {
            Die::Top => Found { top: found, ..self },
            Die::Bottom => Found {
                bottom: found,
                ..self
            },
        }
    }

    /// The same with a die's percent.
    pub fn with_percent(self, die: Die, percent: u32) -> Found
        ensures { result ≡ set_die self die (record (die_found self die) { percent = Some percent }) }
    {
        let found = DieFound {
            percent: Some(percent),
            ..self.die(die)
        };
        self.with_die(die, found)
    }

    /// The same with a die's rows.
    pub fn with_rows(self, die: Die, rows: RowsFound) -> Found
        ensures { result ≡ set_die self die (record (die_found self die) { rows = Some rows }) }
    {
        let found = DieFound {
            rows: Some(rows),
            ..self.die(die)
        };
        self.with_die(die, found)
    }

    /// The same with a die's technology.
    pub fn with_tech(self, die: Die, tech: TechId) -> Found
        ensures { result ≡ set_die self die (record (die_found self die) { tech = Some tech }) }
    {
        let found = DieFound {
            tech: Some(tech),
            ..self.die(die)
        };
        self.with_die(die, found)
    }

    /// Whether the section was read.
    pub fn has(&self, section: Section) -> bool
        ensures { result ≡ has_section self.now section }
    {
        match section {
            Section::DieSize => self.frame.is_some(),
            Section::MaxUtil(die) => self.die(die).percent.is_some(),
            Section::Rows(die) => self.die(die).rows.is_some(),
            Section::Tech(die) => self.die(die).tech.is_some(),
            Section::TerminalSize => self.size.is_some(),
            Section::TerminalSpacing => self.spacing.is_some(),
            Section::TerminalCost => self.cost.is_some(),
        }
    }

    /// Whether all nine sections were read.
    pub fn has_nine(&self) -> bool
        ensures { result ≡ has_nine self.now }
    {
        self.frame.is_some()
            && self.top.is_whole()
            && self.bottom.is_whole()
            && self.size.is_some()
            && self.spacing.is_some()
    }

    /// The terminal, once its two sections were read.
    fn terminal(&self) -> TermSpec
        requires { IsComplete self.now }
        ensures { result ≡ (setup_of self.now).terminal }
    {
        let (size_x, size_y) = self.size.unwrap();
        TermSpec {
            size_x,
            size_y,
            spacing: self.spacing.unwrap(),
            cost: self.cost.unwrap_or(0),
        }
    }

    /// What the sections say together, once all nine were read.
    pub fn setup(&self) -> Setup
        requires { IsComplete self.now }
        ensures { result ≡ setup_of self.now }
    {
        Setup {
            frame: self.frame.unwrap(),
            top: self.top.spec(),
            bottom: self.bottom.spec(),
            terminal: self.terminal(),
        }
    }
}
