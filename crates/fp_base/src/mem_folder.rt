//! A folder in memory, for tests: it tells what it holds, and fails where it is asked to.

ghost use Rattle.std.specs.Prelude.{◌≡◌, ◌≤◌, ◌++◌, ◌-◌, ◌^◌, [], Some, None, length, take, drop, min};
ghost use Rattle.std.specs.Prelude.{option_copied, IfOk, OnOk, OnErr, IsErrOf, is_ok};
ghost use Rattle.std.specs.Bool.{OnTrue, OnFalse};
ghost use Rattle.std.specs.FinMap as finite;
ghost use Rattle.fp_base.specs.Faults.{Rose};
ghost use Rattle.fp_base.specs.Files.{WhereTold, bytes_of, sets_file, OthersStay, ReadsAt};
ghost use Rattle.fp_base.specs.Memory.{files_told, can_create, created, not_created, can_append};
ghost use Rattle.fp_base.specs.Memory.{appended, call_failed, read_answer, after_read};
ghost use Rattle.fp_base.specs.Memory.{can_hold, holding};

use crate::buffer::Buffer;
use crate::call_count::CallCount;
use crate::file_table::{FileTable, NAME_ROOM};
use crate::folder::{Failed, Folder, NoMemory, ReadFault};
use std::alloc::Global;
use std::marker::Model;

/// A folder in memory. It takes all its room when it is made: for so many names of at most 255
/// bytes, with so many bytes each. Its calls as a `Folder` are numbered from 0 and take no memory,
/// and a call fails exactly where its number is one of those that are to fail, or where it needs
/// more room than there is.
#[derive(Drop)]
pub struct MemFolder {
    table: FileTable,
    made: Buffer,
    is_made: bool,
    calls: CallCount,
    piece: usize,
}

impl Model for MemFolder {
    ghost use Rattle.fp_base.specs.Memory.{FolderState, folder_code};

    ghost Value = { FolderState };

    ghost coded = { folder_code };

    ghost use Rattle.fp_base.specs.MemoryFolder.{folder_of, IsSound};

    ghost view = { folder_of };

    ghost invariant = { IsSound };
}

impl MemFolder {
    /// A folder that holds no name and has no faults, with room for `files` names of `room` bytes
    /// each. The calls with the numbers in `fails` are to fail. It answers `NoMemory` where the room
    /// is not there.
    pub fn new(
        alloc: Global,
        fails: &[u64],
        files: usize,
        room: usize,
    ) -> Result<MemFolder, NoMemory>
        ensures { IfOk result (λ f. f ≡ record {
          table = record { files = finite.empty; most = files; room = room };
          made = None;
          calls = record { so_far = 0; faults = 0; fails = fails.now };
          piece = 2 ^ 64 - 1;
        }) }
    {
        let table = FileTable::new(alloc, files, room)?;
        let made = Buffer::new(alloc, NAME_ROOM)?;
        let calls = CallCount::new(alloc, fails)?;
        Ok(MemFolder {
            table,
            made,
            is_made: false,
            calls,
            piece: usize::MAX,
        })
    }

    /// Sets a file, and is no call of the folder: it leaves `made` and the counts. It says false
    /// exactly where the name or the bytes do not fit, and then nothing changes.
    pub fn put_file(&mut self, name: &str, bytes: &[u8]) -> bool
        ensures answer { result ≡ can_hold self.old.table name.now bytes.now }
        ensures held { OnTrue result (self.new ≡ record self.old {
          table = holding self.old.table name.now bytes.now;
        }) }
        ensures refused { OnFalse result (self.new ≡ self.old) }
    {
        self.table.set(name.as_bytes(), bytes)
    }

    /// What the name holds, none exactly where it is not held.
    pub fn file(&self, name: &str) -> Option<&[u8]>
        ensures { option_copied result ≡ bytes_of self.now.table.files name.now }
    {
        self.table.get(name.as_bytes())
    }

    /// From now on a read gives at most this many bytes, at least 1. It is no call of the folder, and
    /// changes nothing else.
    pub fn set_piece(&mut self, most: usize)
        requires { 1 ≤ most }
        ensures { self.new ≡ record self.old { piece = most } }
    {
        self.piece = most;
    }

    /// How many calls of the folder there were, as far as 2^64 - 1. A call's number is what this
    /// gives before it.
    pub fn calls(&self) -> u64
        ensures { result ≡ self.now.calls.so_far }
    {
        self.calls.so_far()
    }
}

impl Folder for MemFolder {
    ghost held = { files_told };

    ghost made = { λ f. f.made };

    ghost faults = { λ f. f.calls.faults };

    fn read_at(&mut self, name: &str, at: u64, buf: &mut [u8]) -> Result<usize, ReadFault>
        ensures within { IfOk result (λ count. count ≤ length buf.new) }
        ensures bytes { WhereTold (files_told self.old)
            (λ files. ReadsAt (bytes_of files name.now) at result buf.new) }
        ensures held { files_told self.new ≡ files_told self.old }
        ensures made { self.new.made ≡ self.old.made }
        ensures later { self.old.calls.faults ≤ self.new.calls.faults }
        ensures missing { IsErrOf result ReadFault.Missing →
            self.new.calls.faults ≡ self.old.calls.faults }
        ensures cause { IsErrOf result ReadFault.Failed →
            Rose self.old.calls.faults self.new.calls.faults }
        ensures answer { result ≡ read_answer self.old name.now at (length buf.old) }
        ensures after { self.new ≡ after_read self.old }
        ensures rest { IfOk result (λ count. drop count buf.new ≡ drop count buf.old) }
    {
        if self.calls.is_due() {
            self.calls.fail();
            return Err(ReadFault::Failed);
        }
        self.calls.count();
        match self.table.get(name.as_bytes()) {
            Some(bytes) => Ok(copy_from(bytes, at as usize, self.piece, buf)),
            None => Err(ReadFault::Missing),
        }
    }

    fn create(&mut self, name: &str) -> Result<(), Failed>
        ensures created { OnOk result (files_told self.new ≡
            sets_file name.now (λ _. []) (files_told self.old)) }
        ensures made { OnOk result (self.new.made ≡ Some name.now) }
        ensures others { OthersStay name.now (files_told self.old) (files_told self.new) }
        ensures not_made { OnErr result (self.new.made ≡ None) }
        ensures later { self.old.calls.faults ≤ self.new.calls.faults }
        ensures cause { OnErr result (Rose self.old.calls.faults self.new.calls.faults) }
        ensures answer { is_ok result ≡ can_create self.old name.now }
        ensures ok { OnOk result (self.new ≡ created self.old name.now) }
        ensures err { OnErr result (self.new ≡ not_created self.old) }
    {
        self.is_made = false;
        if self.calls.is_due() || !self.table.set(name.as_bytes(), &[]) {
            self.calls.fail();
            return Err(Failed);
        }
        self.calls.count();
        self.made.set(name.as_bytes());
        self.is_made = true;
        Ok(())
    }

    fn append(&mut self, name: &str, piece: &[u8]) -> Result<(), Failed>
        requires { self.old.made ≡ Some name.now }
        ensures appended { OnOk result (files_told self.new ≡
            sets_file name.now (λ bytes. bytes ++ piece.now) (files_told self.old)) }
        ensures made { self.new.made ≡ self.old.made }
        ensures others { OthersStay name.now (files_told self.old) (files_told self.new) }
        ensures later { self.old.calls.faults ≤ self.new.calls.faults }
        ensures cause { OnErr result (Rose self.old.calls.faults self.new.calls.faults) }
        ensures answer { is_ok result ≡ can_append self.old name.now piece.now }
        ensures ok { OnOk result (self.new ≡ appended self.old name.now piece.now) }
        ensures err { OnErr result (self.new ≡ call_failed self.old) }
    {
        if self.calls.is_due() || !self.table.append(name.as_bytes(), piece) {
            self.calls.fail();
            return Err(Failed);
        }
        self.calls.count();
        Ok(())
    }
}

/// Copies the bytes from an offset on into the front of the buffer, as many as there are and fit, and
/// at most so many.
fn copy_from(bytes: &[u8], at: usize, most: usize, buf: &mut [u8]) -> usize
    ensures count { result ≡ min (min (length buf.old) most) (length bytes.now - at) }
    ensures front { take result buf.new ≡ take result (drop at bytes.now) }
    ensures rest { drop result buf.new ≡ drop result buf.old }
{
    let start = at.min(bytes.len());
    let left = &bytes[start..];
    let count = buf.len().min(most).min(left.len());
    buf[..count].copy_from_slice(&left[..count]);
    count
}
