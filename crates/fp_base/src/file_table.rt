//! Files in memory, in room that is taken once.

ghost use Rattle.std.specs.Prelude.{◌≡◌, ◌+◌, ◌≤◌, ◌<◌, ◌++◌, All, None, IfOk, IsSome, length};
ghost use Rattle.std.specs.Prelude.{nat_lt, nat_le, option_copied, position, slice_set};
ghost use Rattle.std.specs.Prelude.{slice_index_or, vec_len, vec_capacity};
ghost use Rattle.std.specs.Bool.{OnTrue, OnFalse};
ghost use Rattle.std.specs.Str.{bytes_eq};
ghost use Rattle.std.specs.FinMap as finite;
ghost use Rattle.fp_base.specs.Files.{bytes_of};
ghost use Rattle.fp_base.specs.Memory.{can_hold, holding, bytes_under};
ghost use Rattle.fp_base.specs.MemoryFiles.{HasRoom, with_bytes, no_file};

use crate::buffer::Buffer;
use crate::folder::NoMemory;
use std::alloc::Global;
use std::marker::Model;

/// The greatest number of bytes of a name.
pub const NAME_ROOM: usize = 255;

/// A name and its bytes.
#[derive(Drop)]
pub struct MemFile {
    pub name: Buffer,
    pub bytes: Buffer,
}

/// The files in use, and those whose room waits for a name.
#[derive(Drop)]
pub struct FileTable {
    used: Vec<MemFile>,
    spare: Vec<MemFile>,
    most: usize,
    room: usize,
}

impl Model for FileTable {
    ghost use Rattle.fp_base.specs.Memory.{Table, table_code};

    ghost Value = { Table };

    ghost coded = { table_code };

    ghost use Rattle.fp_base.specs.MemoryFiles.{table_of, IsKept};

    ghost view = { table_of };

    ghost invariant = { IsKept };
}

/// The first file with this name.
fn place_of(files: &[MemFile], name: &[u8]) -> Option<usize>
    ensures { result ≡ position (λ f. bytes_eq name.now f.name.bytes) files.now }
{
    files.iter().position(|file| name == file.name.as_slice())
}

/// Has the file at an index hold these bytes.
fn set_at(files: &mut Vec<MemFile>, index: usize, bytes: &[u8])
    requires within { index < vec_len files.old }
    requires room { length bytes.now ≤ (slice_index_or files.old.items index no_file).bytes.room }
    ensures items { files.new.items ≡ slice_set files.old.items index
        (with_bytes (slice_index_or files.old.items index no_file) bytes.now) }
    ensures capacity { vec_capacity files.new ≡ vec_capacity files.old }
{
    let file = &mut files[index];
    file.bytes.set(bytes);
}

/// Puts the piece behind what the file at an index holds, if it fits.
fn append_at(files: &mut Vec<MemFile>, index: usize, piece: &[u8]) -> bool
    requires { index < vec_len files.old }
    ensures answer { let file = slice_index_or files.old.items index no_file in
        result ≡ nat_le (length file.bytes.bytes + length piece.now) file.bytes.room }
    ensures held { let file = slice_index_or files.old.items index no_file in
        OnTrue result (files.new.items ≡ slice_set files.old.items index
        (with_bytes file (file.bytes.bytes ++ piece.now))) }
    ensures refused { OnFalse result (files.new.items ≡ files.old.items) }
    ensures capacity { vec_capacity files.new ≡ vec_capacity files.old }
{
    if piece.len() > files[index].bytes.spare() {
        return false;
    }
    let file = &mut files[index];
    file.bytes.append(piece);
    true
}

impl FileTable {
    /// No name so far, and room for `files` names of `room` bytes each.
    pub fn new(alloc: Global, files: usize, room: usize) -> Result<FileTable, NoMemory>
        ensures { IfOk result (λ t. t ≡ record { files = finite.empty; most = files; room = room }) }
    {
        let used = Vec::with_capacity(alloc, files)?;
        let spare = spare_files(alloc, files, room)?;
        Ok(FileTable {
            used,
            spare,
            most: files,
            room,
        })
    }

    /// What the name holds, none where it is not held.
    pub fn get(&self, name: &[u8]) -> Option<&[u8]>
        ensures { option_copied result ≡ bytes_of self.now.files name.now }
    {
        let index = place_of(&self.used, name)?;
        Some(self.used[index].bytes.as_slice())
    }

    /// Has the name hold these bytes, if it can.
    pub fn set(&mut self, name: &[u8], bytes: &[u8]) -> bool
        ensures answer { result ≡ can_hold self.old name.now bytes.now }
        ensures held { OnTrue result (self.new ≡ holding self.old name.now bytes.now) }
        ensures refused { OnFalse result (self.new ≡ self.old) }
    {
        if name.len() > NAME_ROOM || bytes.len() > self.room {
            return false;
        }
        match place_of(&self.used, name) {
            Some(index) => {
                set_at(&mut self.used, index, bytes);
                true
            }
            None => self.add(name, bytes),
        }
    }

    /// Has a name that is not held hold these bytes, if one name more fits.
    fn add(&mut self, name: &[u8], bytes: &[u8]) -> bool
        requires name { length name.now ≤ 255 }
        requires bytes { length bytes.now ≤ self.old.room }
        requires new { bytes_of self.old.files name.now ≡ None }
        ensures answer { result ≡ nat_lt (finite.len self.old.files) self.old.most }
        ensures held { OnTrue result (self.new ≡ holding self.old name.now bytes.now) }
        ensures refused { OnFalse result (self.new ≡ self.old) }
    {
        let Some(mut file) = self.spare.pop() else {
            return false;
        };
        file.name.set(name);
        file.bytes.set(bytes);
        let _ = self.used.push(file);
        true
    }

    /// Puts the piece behind what a held name holds, if it fits.
    pub fn append(&mut self, name: &[u8], piece: &[u8]) -> bool
        requires { IsSome (bytes_of self.old.files name.now) }
        ensures answer { let bytes = bytes_under self.old name.now in
            result ≡ nat_le (length bytes + length piece.now) self.old.room }
        ensures held { let bytes = bytes_under self.old name.now in
            OnTrue result (self.new ≡ holding self.old name.now (bytes ++ piece.now)) }
        ensures refused { OnFalse result (self.new ≡ self.old) }
    {
        match place_of(&self.used, name) {
            Some(index) => append_at(&mut self.used, index, piece),
            None => unreachable!(),
        }
    }
}

/// Files without a name, with room for a name of 255 bytes and for `room` bytes.
fn spare_files(alloc: Global, count: usize, room: usize) -> Result<Vec<MemFile>, NoMemory>
    ensures count { IfOk result (λ v. vec_len v ≡ count) }
    ensures room { IfOk result (λ v. All (HasRoom room) v.items) }
{
    let mut spare = Vec::with_capacity(alloc, count)?;
    for place in 0..count {
        let name = Buffer::new(alloc, NAME_ROOM)?;
        let bytes = Buffer::new(alloc, room)?;
        spare.push(MemFile { name, bytes })?;
    }
    Ok(spare)
}
