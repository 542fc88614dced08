//! The open files of a folder, by name: those that are read, and those that are made.
ghost use Rattle.std.specs.Prelude.{◌≡◌, ◌<◌, ◌≤◌, length, IfOk, IfSome};

use crate::opened_file::{Node, OpenedFile, is_output};
use crate::piece::write_piece;
use std::alloc::Global;
use std::fs::{self, File, Metadata, OpenOptions};
use std::io::{self, ErrorKind};
use std::os::unix::fs::FileTypeExt;
use std::rt::Files;

/// The files that were opened. Each stays open, so that a name means the same file from its first call to the last.
#[derive(Drop)]
pub(crate) struct OpenFiles {
    read: Vec<OpenedFile>,
    made: Vec<OpenedFile>,
}

/// The place of the file that was opened under the name.
fn place_of(files: &[OpenedFile], name: &str) -> Option<usize>
    ensures { IfSome result (λ place. place < length files.now) }
{
    files.iter().position(|opened| opened.has_name(name))
}

/// Whether one of the files is this one, opened under another name.
fn has_other_name(files: &[OpenedFile], node: Node, name: &str) -> bool {
    files
        .iter()
        .any(|opened| opened.is_node(node) && !opened.has_name(name))
}

impl OpenFiles {
    /// No file is open; it takes no memory.
    pub(crate) fn new(alloc: Global) -> OpenFiles {
        OpenFiles {
            read: Vec::new(alloc),
            made: Vec::new(alloc),
        }
    }

    /// Reads once from the place on, in a regular file that isn't the standard output.
    pub(crate) fn read_at<R: Files<File = File>>(
        &mut self,
        rt: &R,
        name: &str,
        at: u64,
        into: &mut [u8],
    ) -> io::Result<usize>
        ensures { IfOk result (λ count. count ≤ length into.old) }
    {
        if let Some(place) = place_of(&self.read, name) {
            return self.read[place].read_at(at, into);
        }
        let opened = open_to_read(rt, name)?;
        let count = opened.read_at(at, into)?;
        self.read.push(opened)?;
        Ok(count)
    }

    /// Makes the file empty, new or not.
    pub(crate) fn create<R: Files<File = File>>(&mut self, rt: &R, name: &str) -> io::Result<()> {
        if let Some(place) = place_of(&self.made, name) {
            return self.made[place].cut();
        }
        let opened = self.open_to_write(rt, name, true)?;
        opened.cut()?;
        self.made.push(opened)?;
        Ok(())
    }

    /// Writes once at the end of the file, which is there.
    pub(crate) fn append<R: Files<File = File>>(
        &mut self,
        rt: &R,
        name: &str,
        piece: &[u8],
    ) -> io::Result<usize>
        ensures { IfOk result (λ count. (0 < count) × (count ≤ length piece.now)) }
    {
        if let Some(place) = place_of(&self.made, name) {
            return self.made[place].append(piece);
        }
        let mut opened = self.open_to_write(rt, name, false)?;
        let count = opened.append(piece)?;
        self.made.push(opened)?;
        Ok(count)
    }

    /// Opens a file to be written, which no other run writes, and locks it. Nothing of it is cut.
    fn open_to_write<R: Files<File = File>>(
        &self,
        rt: &R,
        name: &str,
        create: bool,
    ) -> io::Result<OpenedFile> {
        if let Ok(found) = fs::metadata(rt, name) {
            self.refuse_written(rt, name, &found)?;
        }
        let file = OpenOptions::new()
            .append(true)
            .create(create)
            .open(rt, name)?;
        let found = file.metadata()?;
        self.refuse_written(rt, name, &found)?;
        OpenedFile::locked(name, file, &found)
    }

    /// Refuses to write what is no file and no character device, and a file that is open under another name or is the
    /// standard output.
    fn refuse_written<R: Files>(&self, rt: &R, name: &str, found: &Metadata) -> io::Result<()> {
        if !found.is_file() {
            if found.file_type().is_char_device() {
                return Ok(());
            }
            return Err(ErrorKind::InvalidInput.into());
        }
        let node = Node::of(found);
        let elsewhere = has_other_name(&self.read, node, name)
            || has_other_name(&self.made, node, name);
        if elsewhere || is_output(rt, node) {
            return Err(ErrorKind::ResourceBusy.into());
        }
        Ok(())
    }
}

/// Opens a regular file to be read, other than the standard output.
fn open_to_read<R: Files<File = File>>(rt: &R, name: &str) -> io::Result<OpenedFile> {
    // The opening of a pipe would wait for its other end.
    if !fs::metadata(rt, name)?.is_file() {
        return Err(ErrorKind::InvalidInput.into());
    }
    let file = fs::open(rt, name)?;
    let found = file.metadata()?;
    if !found.is_file() {
        return Err(ErrorKind::InvalidInput.into());
    }
    if is_output(rt, Node::of(&found)) {
        return Err(ErrorKind::ResourceBusy.into());
    }
    OpenedFile::unlocked(name, file, &found)
}
