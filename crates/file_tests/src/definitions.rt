use bytes::Bytes;
use std::alloc::{AllocError, Global};
use std::test::Fail;
use xr_arrays::{ArrayValue, Cells, Form, Pieces, StoredArray};
use xr_types::{DType, Items, NcType};

/// The shorts 7 and -7, the second hidden.
fn typed(alloc: Global) -> Result<ArrayValue, AllocError> {
    let shape = Items::from_slice(alloc, &[2])?;
    let cells = Cells::Int16(Items::from_slice(alloc, &[7, -7])?);
    let mask = Items::from_slice(alloc, &[0, 1])?;
    Ok(ArrayValue::of(shape, cells, Some(mask)))
}

/// The same shorts as a file has them, where -7 marks a missing cell.
fn stored(alloc: Global) -> Result<ArrayValue, AllocError> {
    let shape = Items::from_slice(alloc, &[2])?;
    let bytes = Bytes::copy_from_slice(alloc, &[0, 7, 255, 249])?;
    let fills = Items::from_slice(alloc, &[-7])?;
    Ok(ArrayValue::stored(StoredArray::of(shape, NcType::Short, bytes, fills)))
}

/// Whether an array is typed and has this mask.
fn has_mask(array: &ArrayValue, cells: &[u8]) -> bool {
    match array.form() {
        Form::Typed(typed) => match typed.parts() {
            (_, Some(mask)) => mask.as_slice() == cells,
            (_, None) => false,
        },
        Form::Stored(_) => false,
    }
}

/// Whether an array is stored as these bytes and has these fill numbers.
fn has_bytes(
    alloc: Global,
    array: &ArrayValue,
    bytes: &[u8],
    fills: &[i128],
) -> Result<bool, AllocError> {
    match array.form() {
        Form::Stored(stored) => {
            let parts = stored.parts();
            let raw = parts.pieces.bytes(alloc, parts.kind)?;
            Ok(raw.as_slice() == bytes && parts.fills == fills)
        }
        Form::Typed(_) => Ok(false),
    }
}

#[test]
fn an_array_is_made_and_copied_with_its_mask(rt: HostRuntime) -> Result<(), Fail> {
    let array = typed(rt.alloc())?;
    let copy = array.copy(rt.alloc())?;
    assert!(rt; copy.kind() == DType::Int16);
    assert_eq!(rt; copy.shape(), [2].as_slice());
    assert!(rt; has_mask(&copy, &[0, 1]));
    Ok(())
}

#[test]
fn a_copy_of_a_stored_array_has_its_bytes(rt: HostRuntime) -> Result<(), Fail> {
    let array = stored(rt.alloc())?;
    let copy = array.copy(rt.alloc())?;
    assert!(rt; copy.kind() == DType::Int16);
    assert!(rt; has_bytes(rt.alloc(), &copy, &[0, 7, 255, 249], &[-7])?);
    Ok(())
}

/// The numbers from 0 to 11.
const TWELVE: [u8; 12] = [0, 1, 2, 3, 4, 5, 6, 7, 8, 9, 10, 11];

fn twelve() -> &'static [u8] {
    &TWELVE
}

/// Pieces of shorts in twelve bytes put together, if they lie apart and inside.
fn put_together(
    alloc: Global,
    begin: u64,
    step: u64,
    size: u64,
    count: u64,
) -> Result<Option<Bytes>, AllocError> {
    let bytes = Bytes::from_static(twelve());
    match Pieces::apart(NcType::Short, bytes, begin, step, size, count) {
        Some(pieces) => Ok(Some(pieces.bytes(alloc, NcType::Short)?)),
        None => Ok(None),
    }
}

#[test]
fn pieces_are_put_together(rt: HostRuntime) -> Result<(), Fail> {
    let alloc = rt.alloc();
    let two = put_together(alloc, 2, 5, 4, 2)?.ok_or("none")?;
    assert_eq!(rt; two.as_slice(), [2, 3, 4, 5, 7, 8, 9, 10].as_slice());
    let last = put_together(alloc, 3, 5, 4, 2)?.ok_or("none")?;
    assert_eq!(rt; last.as_slice(), [3, 4, 5, 6, 8, 9, 10, 11].as_slice());
    Ok(())
}

/// Half a short, pieces that overlap, none, and one that ends behind the bytes.
#[test]
fn pieces_lie_apart_and_inside(rt: HostRuntime) -> Result<(), Fail> {
    let alloc = rt.alloc();
    for (begin, step, size, count) in [
        (0u64, 4u64, 3u64, 1u64),
        (0, 2, 4, 2),
        (0, 4, 4, 0),
        (4, 5, 4, 2),
    ] {
        assert!(rt; put_together(alloc, begin, step, size, count)?.is_none());
    }
    Ok(())
}
