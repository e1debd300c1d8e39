//! The views of typed cells whose kind is known.
ghost use Rattle.std.specs.Prelude.{◌≡◌};
ghost use Rattle.xr_types.specs.declared.kind.DType.TheVariants as kinds;
ghost use Rattle.strided_block.specs.Typed.{view_kind};
ghost use Rattle.strided_block.specs.declared.typed.TypedView.TheVariants as views;

use strided_block::{TypedView, View};

/// The view of truth values.
pub(crate) fn bools<'s, 'v>(view: &'s TypedView<'v>) -> &'s View<'v, u8>
    requires { view_kind view.now ≡ kinds.Bool }
    ensures { view.now ≡ views.Bool result.now }
{
    match view {
        TypedView::Bool(cells) => cells,
        _ => unreachable!(),
    }
}

/// The view of characters.
pub(crate) fn chars<'s, 'v>(view: &'s TypedView<'v>) -> &'s View<'v, u8>
    requires { view_kind view.now ≡ kinds.Char }
    ensures { view.now ≡ views.Char result.now }
{
    match view {
        TypedView::Char(cells) => cells,
        _ => unreachable!(),
    }
}

/// The view of numbers of 8 bits.
pub(crate) fn bytes<'s, 'v>(view: &'s TypedView<'v>) -> &'s View<'v, i8>
    requires { view_kind view.now ≡ kinds.Int8 }
    ensures { view.now ≡ views.Int8 result.now }
{
    match view {
        TypedView::Int8(cells) => cells,
        _ => unreachable!(),
    }
}

/// The view of numbers of 16 bits.
pub(crate) fn shorts<'s, 'v>(view: &'s TypedView<'v>) -> &'s View<'v, i16>
    requires { view_kind view.now ≡ kinds.Int16 }
    ensures { view.now ≡ views.Int16 result.now }
{
    match view {
        TypedView::Int16(cells) => cells,
        _ => unreachable!(),
    }
}

/// The view of numbers of 32 bits.
pub(crate) fn ints<'s, 'v>(view: &'s TypedView<'v>) -> &'s View<'v, i32>
    requires { view_kind view.now ≡ kinds.Int32 }
    ensures { view.now ≡ views.Int32 result.now }
{
    match view {
        TypedView::Int32(cells) => cells,
        _ => unreachable!(),
    }
}

/// The view of numbers of 64 bits.
pub(crate) fn longs<'s, 'v>(view: &'s TypedView<'v>) -> &'s View<'v, i64>
    requires { view_kind view.now ≡ kinds.Int64 }
    ensures { view.now ≡ views.Int64 result.now }
{
    match view {
        TypedView::Int64(cells) => cells,
        _ => unreachable!(),
    }
}

/// The view of numbers of 8 bits without a sign.
pub(crate) fn ubytes<'s, 'v>(view: &'s TypedView<'v>) -> &'s View<'v, u8>
    requires { view_kind view.now ≡ kinds.UInt8 }
    ensures { view.now ≡ views.UInt8 result.now }
{
    match view {
        TypedView::UInt8(cells) => cells,
        _ => unreachable!(),
    }
}

/// The view of numbers of 16 bits without a sign.
pub(crate) fn ushorts<'s, 'v>(view: &'s TypedView<'v>) -> &'s View<'v, u16>
    requires { view_kind view.now ≡ kinds.UInt16 }
    ensures { view.now ≡ views.UInt16 result.now }
{
    match view {
        TypedView::UInt16(cells) => cells,
        _ => unreachable!(),
    }
}

/// The view of numbers of 32 bits without a sign.
pub(crate) fn uints<'s, 'v>(view: &'s TypedView<'v>) -> &'s View<'v, u32>
    requires { view_kind view.now ≡ kinds.UInt32 }
    ensures { view.now ≡ views.UInt32 result.now }
{
    match view {
        TypedView::UInt32(cells) => cells,
        _ => unreachable!(),
    }
}

/// The view of numbers of 64 bits without a sign.
pub(crate) fn ulongs<'s, 'v>(view: &'s TypedView<'v>) -> &'s View<'v, u64>
    requires { view_kind view.now ≡ kinds.UInt64 }
    ensures { view.now ≡ views.UInt64 result.now }
{
    match view {
        TypedView::UInt64(cells) => cells,
        _ => unreachable!(),
    }
}
