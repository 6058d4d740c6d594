//! A file of a shelf in memory, with the room that it needs reserved.
ghost use Rattle.std.specs.Prelude.{◌≡◌, ◌≤◌, ◌<◌, IfOk, length};

use crate::MemFile;
use fz_list::{List, Text};
use std::alloc::AllocError;
use std::marker::Model;

/// A file that can be written without allocating memory, which a contract sees as a
/// [`MemFile`].
#[derive(Drop)]
pub(crate) struct Stored {
    name: Text,
    bytes: Vec<u8>,
    room: u64,
}

impl Model for Stored {
    ghost use Rattle.std.specs.Prelude.{◌≤◌, vec_capacity};
    ghost use Rattle.fz_shelf.specs.declared.mem_shelf.MemFile.{MemFile};

    ghost Value = { MemFile };

    ghost view = { λ s. record { name = s.name; bytes = s.bytes.items; room = s.room } };

    ghost invariant = { λ s. s.room ≤ vec_capacity s.bytes };
}

impl Stored {
    /// Reserves the room, so that writing the bytes allocates no memory.
    pub(crate) fn new(file: MemFile) -> Result<Stored, AllocError>
        ensures { IfOk result (λ s. s ≡ file) }
    {
        let MemFile { name, bytes, room } = file;
        let mut bytes = bytes.into_vec();
        let more = (room as usize).saturating_sub(bytes.len());
        bytes.reserve(more)?;
        Ok(Stored { name, bytes, room })
    }

    pub(crate) fn name(&self) -> &str
        ensures { result.now ≡ self.now.name }
    {
        self.name.as_str()
    }

    pub(crate) fn bytes(&self) -> &[u8]
        ensures { result.now ≡ self.now.bytes }
    {
        &self.bytes
    }

    pub(crate) fn room(&self) -> u64
        ensures { result ≡ self.now.room }
    {
        self.room
    }

    /// Replaces the file's bytes with these.
    pub(crate) fn replace(&mut self, bytes: &[u8])
        requires { length bytes.now ≤ self.old.room }
        ensures { self.new ≡ record self.old { bytes = bytes.now } }
    {
        self.bytes.clear();
        self.bytes.extend_from_slice(bytes).unwrap()
    }
}
