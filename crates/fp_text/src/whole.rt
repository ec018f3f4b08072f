//! Whole files.

ghost use Rattle.std.specs.Prelude.{◌≡◌, ◌≤◌, ◌^◌, IfOk, IsErrOf, vec_len};
ghost use Rattle.fp_base.specs.Faults.{Rose};
ghost use Rattle.fp_base.specs.Files.{WhereTold, bytes_of};
ghost use Rattle.fp_text.specs.Whole.{IsWhole};
ghost use Rattle.fp_text.specs.declared.whole.WholeFault.TheVariants.{Memory};

use fp_base::{Folder, ReadFault};
use std::alloc::{AllocError, Global};
use thiserror::Error;

/// Why a file was not read.
#[derive(Clone, Copy, Debug, PartialEq, Eq, Error)]
pub enum WholeFault {
    /// The folder does not hold the name.
    #[error("the file is not there")]
    Missing,
    /// The folder's device failed.
    #[error("the device failed")]
    Device,
    /// The name holds more bytes than are asked for.
    #[error("the file is too long")]
    Long,
    /// Memory was asked for and refused.
    #[error("out of memory")]
    Memory,
}

impl From<AllocError> for WholeFault {
    ghost from_gives = { λ _ e. e ≡ Memory };

    fn from(_e: AllocError) -> WholeFault {
        WholeFault::Memory
    }
}

/// The bytes that are read at once.
const PIECE: usize = 1 << 16;

/// All bytes that the name holds, at most `most` of them.
///
/// `Missing` where the name is not held, `Long` where it holds more than `most` bytes, `Device`
/// only where the folder's faults rose.
pub fn read_whole<F: Folder>(
    alloc: Global,
    folder: &mut F,
    name: &str,
    most: u64,
) -> Result<Vec<u8>, WholeFault>
    requires { most ≤ 2 ^ 30 }
    ensures whole { WhereTold (F.held folder.old)
        (λ files. IsWhole (λ v. v.items) (bytes_of files name.now) most result) }
    ensures length { IfOk result (λ v. vec_len v ≤ most) }
    ensures device { IsErrOf result WholeFault.Device
        → Rose (F.faults folder.old) (F.faults folder.new) }
    ensures held { F.held folder.new ≡ F.held folder.old }
    ensures made { F.made folder.new ≡ F.made folder.old }
    ensures later { F.faults folder.old ≤ F.faults folder.new }
{
    let mut bytes = Vec::new(alloc);
    let mut piece = [0; PIECE];
    while bytes.len() as u64 <= most {
        match folder.read_at(name, bytes.len() as u64, &mut piece) {
            Ok(0) => return Ok(bytes),
            Ok(count) => bytes.extend_from_slice(&piece[..count])?,
            Err(ReadFault::Missing) => return Err(WholeFault::Missing),
            Err(ReadFault::Failed) => return Err(WholeFault::Device),
        }
    }
    Err(WholeFault::Long)
}
