//! The owner, the group and the permissions of a file.

use std::fs::{File, Metadata, Permissions};
use std::io;
use std::os::unix::fs::{MetadataExt, PermissionsExt, fchown};

// What of an owner and a group a file could be given.
enum Kept {
    Both,
    Group,
    Neither,
}

fn give(file: &File, old: &Metadata) -> Kept {
    if fchown(file, Some(old.uid()), Some(old.gid())).is_ok() {
        return Kept::Both;
    }
    match fchown(file, None, Some(old.gid())) {
        Ok(()) => Kept::Group,
        Err(_) => Kept::Neither,
    }
}

// The permissions that say the same of another owner: no one runs the file as that one. Where the group too is another
// one, it may do what all may.
fn permissions_for(kept: Kept, mode: u32) -> u32 {
    match kept {
        Kept::Both => mode & 0o7777,
        Kept::Group => mode & 0o777,
        Kept::Neither => (mode & 0o707) | ((mode & 0o007) << 3),
    }
}

/// Gives a new file the owner, the group and the permissions of an old one, as far as the system allows it.
pub fn take_over(file: &File, old: &Metadata) -> io::Result<()> {
    let mode = permissions_for(give(file, old), old.mode());
    file.set_permissions(Permissions::from_mode(mode))
}
