//! Real files as a folder.

ghost use Rattle.std.specs.Prelude.{◌≡◌, ◌≤◌, None, length, IfOk};
ghost use Rattle.fp_base.specs.Faults.{one_more};

use crate::buffer::Buffer;
use crate::call_count::risen;
use crate::device::{read_some, write_whole};
use crate::folder::{Failed, Folder, NoMemory, ReadFault};
use std::alloc::Global;
use std::fs;
use std::io::{ErrorKind, Seek, SeekFrom};
use std::marker::Model;
use std::rt::Files;

/// The greatest number of bytes of a name that is created.
const PATH_ROOM: usize = 4096;

/// The files of the system, by their paths. It tells nothing of what they hold. The file that was
/// last created stays open. Each error of the system but a file that is not there to be read is a
/// fault, and so are a created name of more than 4,096 bytes and want of memory in a call.
#[derive(Drop)]
pub struct DirFolder<'r, R: Files> {
    rt: &'r R,
    created: Option<R::File>,
    name: Buffer,
    faults: u64,
}

impl<'r, R: Files> Model for DirFolder<'r, R> {
    ghost use Rattle.std.specs.Prelude.{◌≡◌, Some, None, is_some, if◌then◌else◌};
    ghost use Rattle.fp_base.specs.RealFiles.{DirState, dir_code};

    ghost Value = { DirState };

    ghost coded = { dir_code };

    ghost view = { λ d. record {
      made = if is_some d.created then Some d.name.bytes else None;
      faults = d.faults;
    } };

    ghost invariant = { λ d. d.name.room ≡ 4096 };
}

impl<'r, R: Files> DirFolder<'r, R> {
    /// A folder where nothing was created, with no faults. It takes room for a name of 4,096 bytes,
    /// and answers `NoMemory` where that is not there.
    pub fn new(rt: &'r R, alloc: Global) -> Result<DirFolder<'r, R>, NoMemory>
        ensures { IfOk result (λ d. d ≡ record { made = None; faults = 0 }) }
    {
        let name = Buffer::new(alloc, PATH_ROOM)?;
        Ok(DirFolder {
            rt,
            created: None,
            name,
            faults: 0,
        })
    }

    fn fail(&mut self) -> Failed
        ensures { self.new ≡ record self.old { faults = one_more self.old.faults } }
    {
        self.faults = risen(self.faults);
        Failed
    }
}

impl<'r, R: Files> Folder for DirFolder<'r, R> {
    ghost held = { λ d. None };

    ghost made = { λ d. d.made };

    ghost faults = { λ d. d.faults };

    fn read_at(&mut self, name: &str, at: u64, buf: &mut [u8]) -> Result<usize, ReadFault> {
        match read_file(self.rt, name, at, buf) {
            Ok(count) => Ok(count),
            Err(ReadFault::Missing) => Err(ReadFault::Missing),
            Err(ReadFault::Failed) => {
                self.fail();
                Err(ReadFault::Failed)
            }
        }
    }

    fn create(&mut self, name: &str) -> Result<(), Failed> {
        self.created = None;
        if name.len() > PATH_ROOM {
            return Err(self.fail());
        }
        match fs::create(self.rt, name) {
            Ok(file) => {
                self.name.set(name.as_bytes());
                self.created = Some(file);
                Ok(())
            }
            Err(_) => Err(self.fail()),
        }
    }

    fn append(&mut self, _name: &str, piece: &[u8]) -> Result<(), Failed> {
        let written = match &mut self.created {
            Some(file) => write_whole(file, piece),
            None => false,
        };
        if written { Ok(()) } else { Err(self.fail()) }
    }
}

/// Reads from an offset of a file.
fn read_file<R: Files>(rt: &R, name: &str, at: u64, buf: &mut [u8]) -> Result<usize, ReadFault>
    ensures { IfOk result (λ count. count ≤ length buf.new) }
{
    let mut file = match fs::open(rt, name) {
        Ok(file) => file,
        Err(error) => {
            return Err(if error.kind() == ErrorKind::NotFound {
                ReadFault::Missing
            } else {
                ReadFault::Failed
            });
        }
    };
    if at > 0 && file.seek(SeekFrom::Start(at)).is_err() {
        return Err(ReadFault::Failed);
    }
    read_some(&mut file, buf).ok_or(ReadFault::Failed)
}
