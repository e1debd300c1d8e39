//! Where a name leads.

use std::alloc::{AllocError, Global};
use std::fs::Files;
use std::io::{Error, ErrorKind};
use std::{fs, io};

// As many links one after the other as the system follows.
const MOST_LINKS: u32 = 40;

/// The folder of a path, with the slash that ends it. It is empty where the path is a name alone.
pub fn folder_of(path: &str) -> &str {
    match path.rfind('/') {
        Some(slash) => match path.split_at_checked(slash.saturating_add(1)) {
            Some((folder, _)) => folder,
            None => path,
        },
        None => "",
    }
}

// The path that a link's text stands for.
fn joined(alloc: Global, link: &str, text: &str) -> Result<String, AllocError> {
    let mut path = String::new(alloc);
    if !text.starts_with('/') {
        path.push_str(folder_of(link))?;
    }
    path.push_str(text)?;
    Ok(path)
}

// The path to which a link leads. None where no link stands there.
fn next_place<R: Files>(rt: &R, alloc: Global, path: &str) -> io::Result<Option<String>> {
    match fs::symlink_metadata(rt, path) {
        Ok(known) => {
            if !known.is_symlink() {
                return Ok(None);
            }
            let text = rt.read_link(alloc, path)?.into_string();
            Ok(Some(joined(alloc, path, text.as_str())?))
        }
        Err(e) if e.kind() == ErrorKind::NotFound => Ok(None),
        Err(e) => Err(e),
    }
}

/// The path to which a name leads by links, whether a file stands there or not. None where the name is no link.
pub fn led_to<R: Files>(rt: &R, alloc: Global, name: &str) -> io::Result<Option<String>> {
    let Some(mut place) = next_place(rt, alloc, name)? else {
        return Ok(None);
    };
    for _ in 0..MOST_LINKS {
        match next_place(rt, alloc, place.as_str())? {
            Some(next) => place = next,
            None => return Ok(Some(place)),
        }
    }
    Err(Error::from(ErrorKind::FilesystemLoop))
}
