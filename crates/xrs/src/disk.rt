//! Files that are read and written by several threads at once, and that belong to someone.
ghost use Rattle.std.specs.Prelude.{ℕ, IfOk};
ghost use Rattle.xr_outside.specs.Outside.{IsWithin};

use crate::belongings::take_over;
use crate::from_disk::read_within;
use crate::to_disk::write_to_disk;
use bytes::Buf;
use std::alloc::Global;
use std::fs::{File, Metadata};
use std::io;
use std::rt::Files;
use std::thread::Threads;
use xr_run::Got;

/// Files that threads may share and that have owners, which is known of the system's own files alone.
pub trait Disk: Files {
    /// The bytes of an open file, where they are at most so many.
    fn read_within<T: Threads>(
        &self,
        threads: &T,
        alloc: Global,
        file: Self::File,
        limit: u64,
    ) -> io::Result<Got>
        ensures { IfOk result (λ got. IsWithin limit got) };

    /// Writes all bytes to a file, and returns once they are on the disk.
    fn write_to_disk<T: Threads, B: Buf + Drop>(
        &self,
        threads: &T,
        file: Self::File,
        bytes: B,
    ) -> io::Result<()>;

    /// Gives a new file the owner, the group and the permissions of an old one, as far as the system allows it.
    fn take_over(&self, file: &Self::File, old: &Metadata) -> io::Result<()>;
}

impl Disk for HostRuntime {
    fn read_within<T: Threads>(
        &self,
        threads: &T,
        alloc: Global,
        file: File,
        limit: u64,
    ) -> io::Result<Got> {
        read_within(threads, alloc, file, limit)
    }

    fn write_to_disk<T: Threads, B: Buf + Drop>(
        &self,
        threads: &T,
        file: File,
        bytes: B,
    ) -> io::Result<()> {
        write_to_disk(threads, file, bytes)
    }

    fn take_over(&self, file: &File, old: &Metadata) -> io::Result<()> {
        take_over(file, old)
    }
}
