//! Whole files of the system as a store.
ghost use Rattle.std.specs.Prelude.{◌≡◌, ℕ, List, None, false};

use crate::beside::Beside;
use crate::disk::Disk;
use crate::place::{folder_of, led_to};
use crate::size_limit::size_limit;
use crate::to_disk::write_all_of;
use bytes::{Buf, BytesQueue};
use std::alloc::Global;
use std::fs::{File, Metadata, OpenFile, OpenOptions};
use std::io::{Error, ErrorKind};
use std::os::unix::fs::OpenOptionsExt;
use std::rt::Files;
use std::thread::Threads;
use std::{fs, io};
use xr_run::{Got, Store, StoreFailed, StoreFault};
use xr_types::TextBytes;

/// Files by their paths, read and written whole. It doesn't tell what they hold.
#[derive(Drop)]
pub struct FileStore<'a, R> {
    rt: &'a R,
    alloc: Global,
    names: NewNames,
    faults: u64,
}

impl<'a, R: Files> FileStore<'a, R> {
    /// The files of the system, which the process of this number writes.
    pub fn new(rt: &'a R, alloc: Global, process: u32) -> Self
        ensures { result.faults ≡ 0 }
    {
        FileStore {
            rt,
            alloc,
            names: NewNames { process, next: 0 },
            faults: 0,
        }
    }
}

// The names that new files get until they are written: those of the process from this number on.
#[derive(Drop)]
struct NewNames {
    process: u32,
    next: u32,
}

// Writes the bytes into what is no regular file: a device or a pipe.
fn write_through<R: Files, B: Buf + Drop>(rt: &R, name: &str, bytes: B) -> io::Result<()> {
    let mut file = OpenOptions::new().write(true).open(rt, name)?;
    write_all_of(&mut file, bytes)
}

// What is known of the file that stands at a place. One that may not be written is an error, though its folder could be.
fn old_at<R: Files>(rt: &R, place: &str) -> io::Result<Option<Metadata>> {
    match OpenOptions::new().write(true).open(rt, place) {
        Ok(file) => Ok(Some(file.metadata()?)),
        Err(e) if e.kind() == ErrorKind::NotFound => Ok(None),
        Err(e) => Err(e),
    }
}

// A new file. Where it replaces an old one, nobody else may open it before it has the permissions of that one.
fn create<R: Files>(rt: &R, path: &str, replaces: bool) -> io::Result<R::File> {
    let mut how = OpenOptions::new();
    how.write(true).create_new(true);
    if replaces {
        how.mode(0o600);
    }
    how.open(rt, path)
}

// Fills a new file with the bytes, up to the disk.
fn fill<R: Disk + Threads, B: Buf + Drop>(
    rt: &R,
    file: R::File,
    old: Option<Metadata>,
    bytes: B,
) -> io::Result<()> {
    if let Some(old) = old {
        rt.take_over(&file, &old)?;
    }
    rt.write_to_disk(rt, file, bytes)
}

// Sends to the disk which names the folder of a path has. A folder that may not be read isn't, nor one whose file system
// can't.
fn sync_folder<R: Files>(rt: &R, path: &str) -> io::Result<()> {
    let folder = folder_of(path);
    let folder = if folder.is_empty() { "." } else { folder };
    let synced = match File::open(rt, folder) {
        Ok(file) => file.sync_all(),
        Err(e) if e.kind() == ErrorKind::PermissionDenied => return Ok(()),
        Err(e) => Err(e),
    };
    match synced {
        Err(e) if e.kind() == ErrorKind::InvalidInput || e.kind() == ErrorKind::Unsupported => {
            Ok(())
        }
        other => other,
    }
}

// Fills the new file at the path beside, and moves it to the place once its bytes are on the disk. Where something fails
// the new file is removed, and the old one is as it was.
fn replace<R: Disk + Threads, B: Buf + Drop>(
    rt: &R,
    place: &str,
    old: Option<Metadata>,
    beside: &str,
    file: R::File,
    bytes: B,
) -> io::Result<()> {
    let moved = match fill(rt, file, old, bytes) {
        Ok(()) => fs::rename(rt, beside, place),
        Err(e) => Err(e),
    };
    match moved {
        Ok(()) => sync_folder(rt, place),
        Err(e) => {
            let _removed = fs::remove_file(rt, beside);
            Err(e)
        }
    }
}

// Tries new names beside the place until one is free.
fn write_beside<R: Disk + Threads, B: Buf + Drop>(
    rt: &R,
    names: &mut NewNames,
    place: &str,
    old: Option<Metadata>,
    bytes: B,
) -> io::Result<()> {
    let Some(mut beside) = Beside::of(place, names.process) else {
        return Err(Error::from(ErrorKind::InvalidFilename));
    };
    for number in names.next..u32::MAX {
        let Some(path) = beside.path(number) else {
            return Err(Error::from(ErrorKind::InvalidFilename));
        };
        match create(rt, path, old.is_some()) {
            Ok(file) => {
                names.next = number + 1;
                return replace(rt, place, old, path, file, bytes);
            }
            Err(e) if e.kind() == ErrorKind::AlreadyExists => {}
            Err(e) => return Err(e),
        }
    }
    Err(Error::from(ErrorKind::AlreadyExists))
}

// Writes a whole file at a place. One past the limit of the process isn't begun, since the system would end the process.
fn write_whole<R: Disk + Threads, B: Buf + Drop>(
    rt: &R,
    names: &mut NewNames,
    place: &str,
    old: Option<Metadata>,
    bytes: B,
) -> io::Result<()> {
    if let Some(limit) = size_limit(rt)
        && bytes.remaining() as u64 > limit
    {
        return Err(Error::from(ErrorKind::FileTooLarge));
    }
    write_beside(rt, names, place, old, bytes)
}

// Where the bytes of a name go.
#[derive(Drop)]
enum Goal {
    // Into what stands there, which is a device or a pipe.
    Through,
    // In the place of the file of this name, or of none.
    Here(Option<Metadata>),
    // In the place of the file at the path to which the name leads, or of none.
    There(String, Option<Metadata>),
}

// Where the bytes of a name go. A link that isn't to a name, as those of open files are, leads to no place where a new file
// could stand.
fn goal_of<R: Files>(rt: &R, alloc: Global, name: &str) -> io::Result<Goal> {
    let stands = match fs::metadata(rt, name) {
        Ok(known) if !known.is_file() => return Ok(Goal::Through),
        Ok(_) => true,
        Err(e) if e.kind() == ErrorKind::NotFound && !name.is_empty() => false,
        Err(e) => return Err(e),
    };
    match led_to(rt, alloc, name)? {
        None => Ok(Goal::Here(old_at(rt, name)?)),
        Some(place) => {
            let old = old_at(rt, place.as_str())?;
            if stands && old.is_none() {
                return Err(Error::from(ErrorKind::NotFound));
            }
            Ok(Goal::There(place, old))
        }
    }
}

// Writes the bytes where they go. It takes no memory.
fn write_to<R: Disk + Threads, B: Buf + Drop>(
    rt: &R,
    names: &mut NewNames,
    name: &str,
    goal: Goal,
    bytes: B,
) -> io::Result<()> {
    match goal {
        Goal::Through => write_through(rt, name, bytes),
        Goal::Here(old) => write_whole(rt, names, name, old, bytes),
        Goal::There(place, old) => write_whole(rt, names, place.as_str(), old, bytes),
    }
}

// Writes a file where the name leads. Memory is wanted only before anything is written.
fn write_file<R: Disk + Threads, B: Buf + Drop>(
    rt: &R,
    alloc: Global,
    names: &mut NewNames,
    name: &str,
    bytes: B,
) -> Result<(), StoreFault> {
    let goal = match goal_of(rt, alloc, name) {
        Ok(goal) => goal,
        Err(e) if e.kind() == ErrorKind::OutOfMemory => return Err(StoreFault::NoMemory),
        Err(_) => return Err(StoreFault::Failed),
    };
    match write_to(rt, names, name, goal, bytes) {
        Ok(()) => Ok(()),
        Err(_) => Err(StoreFault::Failed),
    }
}

impl<'a, R: Disk + Threads> Store for FileStore<'a, R> {
    ghost tells = { λ s. false };

    ghost held = { λ s n. None };

    ghost faults = { λ s. s.faults };

    fn get(&mut self, alloc: Global, name: &TextBytes, limit: u64) -> Result<Got, StoreFault> {
        let faults = self.faults;
        let got = match File::open(self.rt, name.as_str()) {
            Ok(file) => self.rt.read_within(self.rt, alloc, file, limit),
            Err(e) => Err(e),
        };
        match got {
            Ok(got) => Ok(got),
            Err(e) => match e.kind() {
                ErrorKind::NotFound | ErrorKind::NotADirectory => Ok(Got::Absent),
                ErrorKind::OutOfMemory => Err(StoreFault::NoMemory),
                _ => {
                    self.faults = faults.saturating_add(1);
                    Err(StoreFault::Failed)
                }
            },
        }
    }

    fn put(&mut self, name: &TextBytes, bytes: &[u8]) -> Result<(), StoreFailed> {
        let faults = self.faults;
        match write_file(self.rt, self.alloc, &mut self.names, name.as_str(), bytes) {
            Ok(()) => Ok(()),
            Err(_) => {
                self.faults = faults.saturating_add(1);
                Err(StoreFailed)
            }
        }
    }

    fn put_pieces(
        &mut self,
        alloc: Global,
        name: &TextBytes,
        pieces: BytesQueue,
    ) -> Result<(), StoreFault> {
        let faults = self.faults;
        match write_file(self.rt, alloc, &mut self.names, name.as_str(), pieces) {
            Ok(()) => Ok(()),
            Err(StoreFault::NoMemory) => Err(StoreFault::NoMemory),
            Err(StoreFault::Failed) => {
                self.faults = faults.saturating_add(1);
                Err(StoreFault::Failed)
            }
        }
    }
}
