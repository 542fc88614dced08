//! An open file of a folder, and which file of the system it is.
ghost use Rattle.std.specs.Prelude.{◌<◌, ◌≤◌, length, IfOk};

use crate::faults::MOST_NAME_BYTES;
use crate::piece::write_piece;
use arrayvec::ArrayVec;
use std::fs::{self, File, Metadata, TryLockError};
use std::io::{self, ErrorKind};
use std::os::unix::fs::{FileExt, MetadataExt};
use std::rt::Files;

/// Where the system tells what the standard output is.
const STANDARD_OUTPUT: &str = "/dev/stdout";

/// Which file of the system it is, whatever its name: the device, and the number on it.
#[derive(Clone, Copy, Debug, PartialEq, Eq)]
pub(crate) struct Node {
    device: u64,
    number: u64,
}

impl Node {
    pub(crate) fn of(found: &Metadata) -> Node {
        Node {
            device: found.dev(),
            number: found.ino(),
        }
    }
}

/// Whether the standard output goes to this file, as far as the system tells.
pub(crate) fn is_output<R: Files>(rt: &R, node: Node) -> bool {
    match fs::metadata(rt, STANDARD_OUTPUT) {
        Ok(found) => found.is_file() && Node::of(&found) == node,
        Err(_) => false,
    }
}

/// An open file, with the name that it was opened under.
#[derive(Drop)]
pub(crate) struct OpenedFile {
    name: ArrayVec<u8, MOST_NAME_BYTES>,
    node: Node,
    is_regular: bool,
    file: File,
}

impl OpenedFile {
    /// The file, which isn't locked.
    pub(crate) fn unlocked(name: &str, file: File, found: &Metadata) -> io::Result<OpenedFile> {
        let Ok(name) = ArrayVec::try_from(name.as_bytes()) else {
            return Err(ErrorKind::InvalidFilename.into());
        };
        Ok(OpenedFile {
            name,
            node: Node::of(found),
            is_regular: found.is_file(),
            file,
        })
    }

    /// The file, locked where it is a regular one; it fails where another run holds the lock. Where the system has no
    /// locks on it, it isn't locked.
    pub(crate) fn locked(name: &str, file: File, found: &Metadata) -> io::Result<OpenedFile> {
        let opened = OpenedFile::unlocked(name, file, found)?;
        if opened.is_regular {
            if let Err(TryLockError::WouldBlock) = opened.file.try_lock() {
                return Err(ErrorKind::ResourceBusy.into());
            }
        }
        Ok(opened)
    }

    /// Whether it was opened under this name.
    pub(crate) fn has_name(&self, name: &str) -> bool {
        self.name.as_slice() == name.as_bytes()
    }

    /// Whether it is this file.
    pub(crate) fn is_node(&self, node: Node) -> bool {
        self.is_regular && self.node == node
    }

    /// Reads once from the place on, again where the system was interrupted.
    pub(crate) fn read_at(&self, at: u64, into: &mut [u8]) -> io::Result<usize>
        ensures { IfOk result (λ count. count ≤ length into.old) }
    {
        for _ in 0..u64::MAX {
            match self.file.read_at(into, at) {
                Err(error) if error.kind() == ErrorKind::Interrupted => {}
                answer => return answer,
            }
        }
        Err(ErrorKind::Interrupted.into())
    }

    /// Cuts a regular file to nothing.
    pub(crate) fn cut(&self) -> io::Result<()> {
        if self.is_regular {
            return self.file.set_len(0);
        }
        Ok(())
    }

    /// Writes once at the end. Where all of the piece is taken, the bytes of a regular file are brought to its device, so
    /// that an error which the system tells late is told here.
    pub(crate) fn append(&mut self, piece: &[u8]) -> io::Result<usize>
        ensures { IfOk result (λ count. (0 < count) × (count ≤ length piece.now)) }
    {
        let count = write_piece(&mut self.file, piece)?;
        if self.is_regular && count == piece.len() {
            self.file.sync_data()?;
        }
        Ok(count)
    }
}
