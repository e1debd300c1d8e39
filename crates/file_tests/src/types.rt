use std::test::Fail;
use xr_types::{DType, DeepCopy, Elem, Items, Shape, TextBytes, promote, wrap};

// NumPy: np.array(n).astype(kind), as numpy 1.24 gives it.
#[test]
fn numbers_wrap_as_numpy_casts_them(rt: HostRuntime) {
    let cases: [(DType, i128, i128); 9] = [
        (DType::Int8, 128, -128),
        (DType::Int8, -129, 127),
        (DType::Int8, 256, 0),
        (DType::Int16, 32_768, -32_768),
        (DType::Int16, 65_537, 1),
        (DType::Int32, 2_147_483_648, -2_147_483_648),
        (DType::Int32, -4_294_967_297, -1),
        (
            DType::Int64,
            9_223_372_036_854_775_808,
            -9_223_372_036_854_775_808,
        ),
        (DType::Char, -1, 255),
    ];
    for (kind, n, wrapped) in cases {
        if kind != DType::Bool {
            assert_eq!(rt; wrap(kind, n), wrapped);
        }
    }
}

// NumPy: np.promote_types.
#[test]
fn kinds_promote_as_in_numpy(rt: HostRuntime) {
    let cases: [(DType, DType, Option<DType>); 6] = [
        (DType::Int8, DType::Int16, Some(DType::Int16)),
        (DType::Int64, DType::Int8, Some(DType::Int64)),
        (DType::Bool, DType::Int8, Some(DType::Int8)),
        (DType::Bool, DType::Bool, Some(DType::Bool)),
        (DType::Char, DType::Char, Some(DType::Char)),
        (DType::Int32, DType::Char, None),
    ];
    for (a, b, both) in cases {
        assert!(rt; promote(a, b) == both);
    }
}

fn ends<T: Elem>() -> (i128, i128) {
    (T::least().widen(), T::greatest().widen())
}

fn left<T: Elem>(n: i128) -> i128 {
    T::wrap_from(n).widen()
}

#[test]
fn cells_hold_the_numbers_of_their_kind(rt: HostRuntime) {
    assert_eq!(rt; ends::<i8>(), (-128, 127));
    assert_eq!(rt; ends::<i16>(), (-32_768, 32_767));
    assert_eq!(rt; ends::<i32>(), (-2_147_483_648, 2_147_483_647));
    assert_eq!(rt;
        ends::<i64>(),
        (-9_223_372_036_854_775_808, 9_223_372_036_854_775_807)
    );
    assert_eq!(rt; ends::<u8>(), (0, 255));
    assert_eq!(rt; left::<i8>(200), -56);
    assert_eq!(rt; left::<u8>(-1), 255);
    assert_eq!(rt; left::<i64>(18_446_744_073_709_551_615), -1);
}

#[test]
fn lists_of_texts_are_copied(rt: HostRuntime) -> Result<(), Fail> {
    let alloc = rt.alloc();
    let mut names = Items::new(alloc);
    names.push(TextBytes::from_str(alloc, "x")?)?;
    names.push(TextBytes::from_str(alloc, "time")?)?;
    let copy = names.deep_copy(alloc)?;
    let last = copy.as_slice().last().ok_or("no names")?;
    assert_eq!(rt; last.as_str(), "time");
    Ok(())
}

#[test]
fn shapes_and_bytes_are_made(rt: HostRuntime) -> Result<(), Fail> {
    let shape = Shape::from_slice(&[4, 3, 2]);
    assert_eq!(rt; shape.as_slice(), [4, 3, 2].as_slice());
    let bytes = Items::from_slice(rt.alloc(), b"CDF")?;
    assert_eq!(rt; bytes.into_vec().as_slice(), b"CDF".as_slice());
    Ok(())
}
