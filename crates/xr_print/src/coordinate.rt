//! The lines of coordinates that are no index.
ghost use Rattle.std.specs.Prelude.{◌≡◌, ◌++◌, [], ◌∷◌, OnOk};
ghost use Rattle.xr_defs.specs.Text.{after_blanks, quoted, masked_text};
ghost use Rattle.xr_times.specs.Times.{IsTime};
ghost use Rattle.xr_types.specs.Names.{axis_names};
ghost use Rattle.xr_defs.specs.Printing.{content_line, coord_text};
ghost use Rattle.xr_print.specs.Conditions.{IsTimeContent, HoldsTime};
ghost use Rattle.xr_print.specs.Pieces.{coord_head, content_kind, content_masked, content_items, shown_time};

use crate::dimensions::push_dims_of;
use crate::grid::push_cells;
use crate::names::{push_name, push_quoted};
use crate::times::push_time;
use itoa::Buffer;
use std::alloc::AllocError;
use xr_defs::{Content, Coord};
use xr_types::{Axis, Calendar};

/// Appends the mark of what is masked.
pub(crate) fn push_masked(out: &mut Vec<u8>, masked: bool) -> Result<(), AllocError>
    ensures { OnOk result (out.new.items ≡ out.old.items ++ masked_text masked) }
{
    if masked {
        out.extend_from_slice(b" masked")
    } else {
        Ok(())
    }
}

// Appends the part of a line before what the coordinate holds.
fn push_head(
    out: &mut Vec<u8>,
    name: &[u8],
    kind: &str,
    masked: bool,
    axes: &[Axis],
) -> Result<(), AllocError>
    ensures { OnOk result (out.new.items ≡ out.old.items ++ coord_head name.now kind.now masked (axis_names axes.now)) }
{
    out.extend_from_slice(b"coord ")?;
    push_name(out, name)?;
    out.push(b' ')?;
    out.extend_from_slice(kind.as_bytes())?;
    push_masked(out, masked)?;
    out.push(b' ')?;
    push_dims_of(out, axes)?;
    Ok(out.push(b':')?)
}

fn kind_of(content: &Content) -> &'static str
    ensures { result.now ≡ content_kind content.now }
{
    match content {
        Content::Cells(cells, _) => cells.kind().name(),
        Content::Text(_) => "text",
        Content::Time(_, _) => "time",
    }
}

fn is_masked(content: &Content) -> bool
    ensures { result ≡ content_masked content.now }
{
    match content {
        Content::Cells(_, masked) => *masked,
        Content::Text(_) | Content::Time(_, _) => false,
    }
}

#[tactic(auto, using(crate::proofs::Items::one_item))]
fn push_text_item(out: &mut Vec<u8>, text: &[u8]) -> Result<(), AllocError>
    ensures { OnOk result (out.new.items ≡ out.old.items ++ after_blanks (quoted text.now ∷ [])) }
{
    out.push(b' ')?;
    push_quoted(out, text)
}

#[tactic(auto, using(crate::proofs::Items::one_item))]
fn push_time_item(out: &mut Vec<u8>, time: i64, calendar: Calendar) -> Result<(), AllocError>
    requires { IsTime calendar time }
    ensures { OnOk result (out.new.items ≡ out.old.items ++ after_blanks (shown_time calendar time ∷ [])) }
{
    out.push(b' ')?;
    push_time(out, time, calendar)
}

fn push_content(out: &mut Vec<u8>, digits: &mut Buffer, content: &Content) -> Result<(), AllocError>
    requires { IsTimeContent content.now }
    ensures { OnOk result (out.new.items ≡ out.old.items ++ after_blanks (content_items content.now)) }
{
    match content {
        Content::Cells(cells, _) => push_cells(out, digits, cells),
        Content::Text(text) => push_text_item(out, text.as_bytes()),
        Content::Time(coding, time) => push_time_item(out, *time, coding.units.calendar),
    }
}

/// Appends the line of a coordinate.
pub(crate) fn push_coord(
    out: &mut Vec<u8>,
    digits: &mut Buffer,
    coord: &Coord,
) -> Result<(), AllocError>
    requires { HoldsTime coord.now }
    ensures { OnOk result (out.new.items ≡ out.old.items ++ coord_text coord.now) }
{
    let content = &coord.content;
    push_head(
        out,
        coord.name.as_bytes(),
        kind_of(content),
        is_masked(content),
        coord.axes.as_slice(),
    )?;
    push_content(out, digits, content)?;
    Ok(out.push(b'\n')?)
}
