//! Names for new files beside another, made without memory.
ghost use Rattle.std.specs.Prelude.{◌≡◌, ◌+◌, ◌≤◌, ◌<◌};

use crate::place::folder_of;

/// The longest path of a new file, in bytes.
const MOST_PATH: usize = 4_096;

/// How the name of a new file begins. The process and a number follow.
const BEGINNING: [u8; 5] = *b".xrs-";

/// How many digits each of the two has.
const DIGITS: usize = 10;

/// The path of a new file in the folder of another.
#[derive(Drop)]
pub struct Beside {
    path: [u8; MOST_PATH],
    folder: usize,
    ghost fits: { folder + 26 ≤ 4096 },
}

// The decimal digits, the first of them zeros.
fn digits_of(number: u32) -> [u8; DIGITS] {
    let mut digits = [b'0'; DIGITS];
    let mut rest = number;
    for place in (0..DIGITS).rev() {
        digits[place] = b'0' + (rest % 10) as u8;
        rest /= 10;
    }
    digits
}

impl Beside {
    /// Names of this process in the folder of a path, unless they would be too long.
    pub fn of(other: &str, process: u32) -> Option<Beside> {
        let folder_name = folder_of(other).as_bytes();
        let folder = folder_name.len();
        if folder > MOST_PATH - BEGINNING.len() - 2 * DIGITS - 1 {
            return None;
        }
        let mut path = [0u8; MOST_PATH];
        path[..folder].copy_from_slice(folder_name);
        let digits = folder + BEGINNING.len();
        path[folder..digits].copy_from_slice(BEGINNING.as_slice());
        let dash = digits + DIGITS;
        path[digits..dash].copy_from_slice(digits_of(process).as_slice());
        path[dash] = b'-';
        Some(Beside { path, folder })
    }

    /// The name of this number.
    pub fn path(&mut self, number: u32) -> Option<&str> {
        let digits = self.folder + BEGINNING.len() + DIGITS + 1;
        let end = digits + DIGITS;
        self.path[digits..end].copy_from_slice(digits_of(number).as_slice());
        str::from_utf8(&self.path[..end]).ok()
    }
}
