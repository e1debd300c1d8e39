use crate::file_store::FileStore;
use crate::std_sink::StdSink;
use bytes::{Bytes, BytesQueue};
use std::fs::File;
use std::io::Read;
use std::os::unix::fs::symlink;
use std::test::Fail;
use std::{fs, process};
use xr_run::{Got, Sink, Store, StoreFault, one_end_fits};
use xr_types::TextBytes;

fn found(got: Result<Got, StoreFault>) -> Option<Vec<u8>> {
    match got {
        Ok(Got::Found(bytes)) => Some(bytes),
        _ => None,
    }
}

#[test]
fn a_file_is_put_and_got_and_nothing_stays_beside_it(rt: HostRuntime) -> Result<(), Fail> {
    let alloc = rt.alloc();
    let mut store = FileStore::new(&rt, alloc, process::id(rt.process()));
    let name = TextBytes::from_str(alloc, "a.nc")?;
    let empty = TextBytes::from_str(alloc, "")?;
    let absent = store.get(alloc, &name, 9);
    assert!(rt; matches!(absent, Ok(Got::Absent)));
    assert!(rt; store.put(&name, b"old").is_ok());
    assert!(rt; store.put(&name, b"new bytes").is_ok());
    let bytes = found(store.get(alloc, &name, 9)).ok_or("no bytes")?;
    assert_eq!(rt; bytes.as_slice(), b"new bytes".as_slice());
    let long = store.get(alloc, &name, 8);
    assert!(rt; matches!(long, Ok(Got::TooLong)));
    assert!(rt; store.put(&empty, b"x").is_err());
    for entry in fs::read_dir(&rt, ".")? {
        let entry = entry?;
        assert!(rt; !entry.file_name().starts_with(".xrs-"));
    }
    Ok(())
}

#[test]
fn who_reads_the_old_file_reads_on(rt: HostRuntime) -> Result<(), Fail> {
    let alloc = rt.alloc();
    let mut store = FileStore::new(&rt, alloc, process::id(rt.process()));
    let name = TextBytes::from_str(alloc, "d.nc")?;
    assert!(rt; store.put(&name, b"old").is_ok());
    let mut reader = File::open(&rt, "d.nc")?;
    assert!(rt; store.put(&name, b"new bytes").is_ok());
    let mut bytes = Vec::new(alloc);
    reader.read_to_end(&mut bytes)?;
    assert_eq!(rt; bytes.as_slice(), b"old".as_slice());
    Ok(())
}

#[test]
fn a_link_leads_to_the_file_that_is_put(rt: HostRuntime) -> Result<(), Fail> {
    let alloc = rt.alloc();
    let mut store = FileStore::new(&rt, alloc, process::id(rt.process()));
    let link = TextBytes::from_str(alloc, "link.nc")?;
    let name = TextBytes::from_str(alloc, "e.nc")?;
    symlink(&rt, "e.nc", "link.nc")?;
    for bytes in [b"one", b"two"] {
        assert!(rt; store.put(&link, bytes.as_slice()).is_ok());
        let held = found(store.get(alloc, &name, 9)).ok_or("no bytes")?;
        assert_eq!(rt; held.as_slice(), bytes.as_slice());
        assert!(rt; fs::symlink_metadata(&rt, "link.nc")?.is_symlink());
    }
    Ok(())
}

#[test]
fn pieces_are_put_in_a_row(rt: HostRuntime) -> Result<(), Fail> {
    let alloc = rt.alloc();
    let mut store = FileStore::new(&rt, alloc, process::id(rt.process()));
    let name = TextBytes::from_str(alloc, "b.nc")?;
    let mut pieces = BytesQueue::new(alloc);
    pieces.push(Bytes::from_static(b"two "))?;
    pieces.push(Bytes::from_static(b"pieces"))?;
    assert!(rt; store.put_pieces(alloc, &name, pieces).is_ok());
    let bytes = found(store.get(alloc, &name, 99)).ok_or("no bytes")?;
    assert_eq!(rt; bytes.as_slice(), b"two pieces".as_slice());
    assert!(rt;
        store
            .put_pieces(alloc, &name, BytesQueue::new(alloc))
            .is_ok()
    );
    let none = found(store.get(alloc, &name, 99)).ok_or("no bytes")?;
    assert!(rt; none.is_empty());
    Ok(())
}

// How many bytes of each value a large file has.
const MANY: usize = 5 << 20;

#[test]
fn a_large_file_is_put_and_got_whole(rt: HostRuntime) -> Result<(), Fail> {
    let alloc = rt.alloc();
    let mut store = FileStore::new(&rt, alloc, process::id(rt.process()));
    let name = TextBytes::from_str(alloc, "c.nc")?;
    let mut pieces = BytesQueue::new(alloc);
    for value in 1..=4u8 {
        pieces.push(Bytes::from_vec(vec![in alloc; value; MANY]?)?)?;
    }
    pieces.push(Bytes::from_static(b"end"))?;
    assert!(rt; store.put_pieces(alloc, &name, pieces).is_ok());
    let bytes = found(store.get(alloc, &name, 99 << 20)).ok_or("no bytes")?;
    let mut rest = bytes.as_slice();
    for value in 1..=4u8 {
        assert!(rt; rest.len() > MANY);
        let (front, behind) = rest.split_at(MANY);
        assert!(rt; front.iter().all(|&byte| byte == value));
        rest = behind;
    }
    assert_eq!(rt; rest, b"end".as_slice());
    let long = store.get(alloc, &name, 20 << 20);
    assert!(rt; matches!(long, Ok(Got::TooLong)));
    Ok(())
}

#[test]
fn standard_output_takes_a_piece(rt: HostRuntime) -> Result<(), Fail> {
    let mut out = StdSink::new(rt.stdout());
    let taken = out.put(b"a line\n").ok().ok_or("no bytes taken")?;
    assert!(rt; taken > 0);
    Ok(())
}

#[test]
fn the_law_of_one_end_holds_everywhere(_rt: HostRuntime) -> Result<(), Fail> {
    one_end_fits();
    Ok(())
}
