//! How each of the values comes to the joined axes.
ghost use Rattle.std.specs.Prelude.{◌≡◌, ◌++◌, List, map, IfOk, OnOk};
ghost use Rattle.xr_aligning.specs.Common.{AllByRecursion, Node};
ghost use Rattle.xr_relations.specs.Aligning as calls;
ghost use Rattle.xr_aligning.specs.declared.coming.Coming.{Coming as OneComing};
ghost use Rattle.xr_aligning.specs.Coming.{Comes, IsChangeOf, IsLabelledIn, TakesLabels};

use crate::assigned::has_index;
use crate::fits::{Change, Fit, fits_of};
use crate::labelled::{Labelled, axes_of};
use std::alloc::{AllocError, Global};
use xr_types::{Axis, DeepCopy, Items, NoMemory};

/// An array or a dataset, the joined axes whose labels it takes, and how its own axes come to them.
#[derive(Drop)]
pub struct Coming<'a> {
    pub on: Labelled<'a>,
    pub joined: Items<Axis>,
    pub fits: Items<Fit>,
}

// The joined axes of the names that have labels among these axes.
fn with_labels(alloc: Global, own: &[Axis], joined: &[Axis]) -> Result<Items<Axis>, AllocError>
    ensures { IfOk result (λ xs. xs ≡ calls.with_labels own.now joined.now) }
{
    let mut out = Items::new(alloc);
    for axis in joined {
        if has_index(own, &axis.name) {
            out.push(axis.deep_copy(alloc)?)?;
        }
    }
    Ok(out)
}

fn coming_to<'a>(alloc: Global, joined: &[Axis], on: Labelled<'a>) -> Result<Coming<'a>, NoMemory>
    ensures on { IfOk result (λ m. m.on ≡ on.entry) }
    ensures labels { IfOk result (TakesLabels joined.now) }
    ensures comes { (nodes : List Node) → IsLabelledIn nodes on.entry → IfOk result Comes }
{
    let own = axes_of(on);
    let joined = with_labels(alloc, own, joined)?;
    let fits = fits_of(alloc, joined.as_slice(), own)?;
    Ok(Coming { on, joined, fits })
}

fn push_coming<'a>(
    alloc: Global,
    out: &mut Items<Coming<'a>>,
    joined: &[Axis],
    values: &[Labelled<'a>],
) -> Result<(), NoMemory>
    ensures on { OnOk result (map (λ (m : OneComing). m.on) out.new ≡ map (λ (m : OneComing). m.on) out.old ++ values.now) }
    ensures labels { OnOk result (AllByRecursion (TakesLabels joined.now) out.old → AllByRecursion (TakesLabels joined.now) out.new) }
    ensures comes { (nodes : List Node) → OnOk result (AllByRecursion (IsLabelledIn nodes) values.now → AllByRecursion Comes out.old → AllByRecursion Comes out.new) }
{
    for value in values {
        let one = coming_to(alloc, joined, *value)?;
        out.push(one)?;
    }
    Ok(())
}

/// How values come to joined axes. A bare axis stays bare.
pub fn all_coming<'a>(
    alloc: Global,
    joined: &[Axis],
    values: &[Labelled<'a>],
) -> Result<Items<Coming<'a>>, NoMemory>
    ensures on { IfOk result (λ ms. map (λ (m : OneComing). m.on) ms ≡ values.now) }
    ensures labels { IfOk result (AllByRecursion (TakesLabels joined.now)) }
    ensures comes { (nodes : List Node) → AllByRecursion (IsLabelledIn nodes) values.now → IfOk result (AllByRecursion Comes) }
{
    let mut out = Items::new(alloc);
    push_coming(alloc, &mut out, joined, values)?;
    Ok(out)
}

/// The change of its axes, with a fill.
pub fn change_of<'b>(coming: &'b Coming<'_>, fill: Option<i128>) -> Change<'b>
    ensures { IsChangeOf coming.now fill result }
{
    Change {
        joined: coming.joined.as_slice(),
        own: axes_of(coming.on),
        fits: coming.fits.as_slice(),
        fill,
    }
}
