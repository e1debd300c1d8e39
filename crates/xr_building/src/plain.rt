//! Arrays that are written out, over axes without labels.
ghost use Rattle.std.specs.Prelude.{◌≡◌, true, List, [], option_map, IfOk};
ghost use Rattle.std.specs.List.{list_all};
ghost use Rattle.xr_types.specs.Results.{Answers};
ghost use Rattle.xr_files.specs.Classic.{is_name};
ghost use Rattle.xr_arrays.specs.declared.node.Node.{Node};
ghost use Rattle.xr_defs.specs.Building as of;
ghost use Rattle.xr_values.specs.Meaning.{meaning, given};
ghost use Rattle.xr_building.specs.Gathered.{gathered as elements_of};
ghost use Rattle.xr_building.specs.Puts.{over};
ghost use Rattle.xr_building.specs.Written.{coords_held, entries_held, plain_given, plain_over, with_written, IsOpen};

use crate::bare::bare_axes;
use crate::check::check_places;
use crate::elements::{Elements, gathered};
use crate::entries::{coords_argument, entries_given};
use crate::given::dims_given;
use crate::header::{Header, header_of};
use crate::nesting::{is_nested, is_regular, nested_shape};
use std::alloc::Global;
use xr_arguments::{argument, bound, option, required};
use xr_types::{Axis, CallFault, Fault, Items, Name, TextBytes};
use xr_values::{Args, Value};

/// What a call writes out.
#[derive(Drop)]
pub struct Written<'a> {
    pub header: Header,
    /// The axes, which have no labels.
    pub axes: Items<Axis>,
    pub cells: Items<Option<i128>>,
    /// The entries of the table of the coordinates.
    pub entries: &'a [(TextBytes, Value)],
}

// The array of the elements of a nested list.
#[tactic(auto, unfolding(crate::specs::Written::plain_over, xr_types::specs::Results::unless))]
fn over_bare<'a>(
    alloc: Global,
    content: &Value,
    elements: Elements,
    dims: &[Name],
    coords: Option<&'a Value>,
    name: Option<&Value>,
    dtype: Option<&Value>,
) -> Result<Written<'a>, CallFault>
    requires elements { (nodes : List Node) → elements ≡ elements_of (of.elements (meaning nodes content.now)) }
    requires names { list_all is_name dims.now ≡ true }
    ensures answers { (nodes : List Node) → Answers (λ w. with_written w.header (over w.axes []) w.cells) result (plain_over (meaning nodes content.now) dims.now (option_map (λ v. meaning nodes v.now) coords.entry) (option_map (λ v. meaning nodes v.now) name.entry) (option_map (λ v. meaning nodes v.now) dtype.entry)) }
    ensures entries { IfOk result (λ w. w.entries.now ≡ entries_held (option_map (λ v. v.now) coords.entry)) }
    ensures bare { IfOk result (λ w. IsOpen w.header w.axes) }
{
    let shape = nested_shape(alloc, dims.len(), content)?;
    let axes = bare_axes(alloc, dims, shape.as_slice())?;
    let entries = entries_given(axes.as_slice(), coords)?;
    let header = header_of(alloc, &elements, name, dtype)?;
    check_places(alloc, axes.as_slice(), entries)?;
    if !is_regular(shape.as_slice(), content) {
        return Err(CallFault::Refused(Fault::SizeConflict));
    }
    Ok(Written {
        header,
        axes,
        cells: elements.cells,
        entries,
    })
}

/// The array of a nested list, as deep as there are dimensions, and the entries of the table of its coordinates.
///
/// # Errors
/// The first of: `BadArgument` for arguments that don't fit the parameters, or without `data` or `dims`; `WrongKind` for an element that
/// is no number or truth value, or both kinds together; `WrongKind` and `BadArgument` of the dimensions; `BadArgument` for lists that
/// are nested too deep or not deep enough; those of the entries, of the name and of the kind; `WrongKind` for elements of another
/// kind; `NoDimension` for an entry whose dimension isn't there; `SizeConflict` for lists of one depth that aren't as long.
#[tactic(auto, unfolding(crate::specs::Written::plain_given, xr_types::specs::Results::unless))]
pub fn written_given<'a>(alloc: Global, args: &'a Args) -> Result<Written<'a>, CallFault>
    ensures answers { (nodes : List Node) → Answers (λ w. with_written w.header (over w.axes []) w.cells) result (plain_given (given nodes args.now)) }
    ensures entries { IfOk result (λ w. w.entries.now ≡ entries_held (coords_held args.now)) }
    ensures bare { IfOk result (λ w. IsOpen w.header w.axes) }
{
    let values = bound(alloc, &["data", "dims", "coords", "name", "dtype"], args)?;
    let values = values.as_slice();
    let content = required(argument(values, 0))?;
    let dimensions = required(argument(values, 1))?;
    let elements = gathered(alloc, content)?;
    let dims = dims_given(alloc, dimensions)?;
    let dims = dims.as_slice();
    if !is_nested(dims.len(), content) {
        return Err(CallFault::Refused(Fault::BadArgument));
    }
    let coords = coords_argument(args);
    over_bare(
        alloc,
        content,
        elements,
        dims,
        coords,
        option(values, 3),
        option(values, 4),
    )
}
