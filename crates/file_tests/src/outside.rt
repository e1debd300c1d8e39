//! The store in memory.
use bytes::{Bytes, BytesQueue};
use std::test::*;
use xr_outside::*;
use xr_types::TextBytes;

fn pieces_of(alloc: std::alloc::Global, pieces: &[&'static [u8]]) -> Result<BytesQueue, Fail> {
    let mut queue = BytesQueue::new(alloc);
    for piece in pieces {
        queue.push(Bytes::from_static(piece)).ok().ok_or("memory")?;
    }
    Ok(queue)
}

#[test]
fn pieces_in_memory(rt: HostRuntime) -> Result<(), Fail> {
    let alloc = rt.alloc();
    let mut store = MemStore::new(alloc, &[], 64, &[2]).ok().ok_or("memory")?;
    let name = TextBytes::from_str(alloc, "a.nc").ok().ok_or("memory")?;
    let first = pieces_of(alloc, &[b"two ", b"pieces"])?;
    assert!(rt; store.put_pieces(alloc, &name, first).is_ok());
    assert_eq!(rt;
        store.bytes_of(&name).ok_or("a.nc")?,
        b"two pieces".as_slice()
    );
    let second = pieces_of(alloc, &[b"another ", b"text"])?;
    let failed = store.put_pieces(alloc, &name, second);
    assert!(rt; failed.is_err());
    assert_eq!(rt;
        store.bytes_of(&name).ok_or("a.nc")?,
        b"two pieces".as_slice()
    );
    let none = pieces_of(alloc, &[])?;
    assert!(rt; store.put_pieces(alloc, &name, none).is_ok());
    assert!(rt; store.bytes_of(&name).ok_or("a.nc")?.is_empty());
    Ok(())
}

#[test]
fn a_put_that_fails_takes_no_room(rt: HostRuntime) -> Result<(), Fail> {
    let alloc = rt.alloc();
    let mut store = MemStore::new(alloc, &[], 16, &[1]).ok().ok_or("memory")?;
    let name = TextBytes::from_str(alloc, "a.nc").ok().ok_or("memory")?;
    let failed = store.put(&name, b"twelve bytes");
    assert!(rt; failed.is_err());
    assert!(rt; store.put(&name, b"twelve bytes").is_ok());
    assert_eq!(rt;
        store.bytes_of(&name).ok_or("a.nc")?,
        b"twelve bytes".as_slice()
    );
    Ok(())
}
