//! Indexes: a variable that is named as its first dimension holds labels.
ghost use Rattle.std.specs.Prelude.{◌≡◌, ◌==◌, ◌&&◌, ◌*◌, length, is_some, option_map, true, IfOk};
ghost use Rattle.xr_types.specs.Points.{size};
ghost use Rattle.xr_defs.specs.Decoding.{is_char, is_integer, is_named_as_first, numbers_or_times, number_labels, text_labels, rows_of, labels_in, is_index, uncoded, index_in};
ghost use Rattle.xr_arrays.specs.Numbers.{numbers_of};
ghost use Rattle.xr_decode.specs.Readable.{IsReadableVar};

use crate::attributes::{copy_without, left_without};
use crate::dims::var_shape;
use crate::kinds::{cells_kind, is_char, is_integer};
use crate::shapes::dim_name;
use crate::stored::{Source, StoredVar};
use crate::text::{are_texts, texts_in};
use crate::times::times_of;
use std::alloc::{AllocError, Global};
use stored_cells::decoded_cells;
use xr_types::{Attr, Items, LabelList, Labels, NoMemory, Shared, TextBytes};
use xr_values::integers_of;

fn is_named_as_first(source: &Source<'_>, var: &StoredVar<'_>) -> bool
    ensures { result ≡ is_named_as_first source.now var.now }
{
    match var.dims().first() {
        Some(id) => dim_name(source.dims(), *id) == var.name().as_str(),
        None => false,
    }
}

// Whether its whole numbers are labels.
fn has_number_labels(var: &StoredVar<'_>) -> bool
    ensures { result ≡ (is_integer var.now.kind && length var.now.dims == 1) }
{
    is_integer(var.kind()) && var.dims().len() == 1
}

// Its whole numbers, or the times for which they stand.
#[tactic(auto, using(crate::proofs::Readable::integer_is_whole))]
fn numbers_or_times(alloc: Global, var: &StoredVar<'_>) -> Result<LabelList, NoMemory>
    requires { is_integer var.now.kind ≡ true }
    ensures { IfOk result (λ l. l ≡ numbers_or_times var.now (numbers_of var.now.kind var.now.raw)) }
{
    let raw = var.raw(alloc)?;
    let cells = decoded_cells(alloc, var.kind(), raw.as_slice())?;
    match times_of(alloc, var.attrs(), &cells)? {
        Some(times) => Ok(times),
        None => {
            let numbers = integers_of(alloc, &cells)?;
            Ok(LabelList::Numbers(cells_kind(var.kind()), numbers))
        }
    }
}

// The rows of values over two dimensions as texts, where each row is one.
#[tactic(auto, using(crate::proofs::Readable::two_sizes))]
fn rows_in(alloc: Global, shape: &[u64], raw: &[u8]) -> Result<Option<Items<TextBytes>>, AllocError>
    requires { length raw.now ≡ size shape.now }
    ensures { IfOk result (λ o. o ≡ rows_of shape.now raw.now) }
{
    match shape {
        [count, width] => texts_in(alloc, raw, *count, *width),
        _ => Ok(None),
    }
}

#[tactic(auto, using(crate::proofs::Readable::two_sizes))]
fn are_rows(shape: &[u64], raw: &[u8]) -> bool
    requires { length raw.now ≡ size shape.now }
    ensures { result ≡ is_some (rows_of shape.now raw.now) }
{
    match shape {
        [count, width] => are_texts(raw, *count, *width),
        _ => false,
    }
}

#[tactic(auto, using(crate::proofs::Readable::char_values))]
fn text_labels(
    alloc: Global,
    source: &Source<'_>,
    var: &StoredVar<'_>,
) -> Result<Option<LabelList>, NoMemory>
    requires { IsReadableVar source.now var.now }
    ensures { IfOk result (λ o. o ≡ text_labels source.now var.now) }
{
    if !is_char(var.kind()) {
        return Ok(None);
    }
    let shape = var_shape(alloc, source, var)?;
    let raw = var.raw(alloc)?;
    match rows_in(alloc, shape.as_slice(), raw.as_slice())? {
        Some(texts) => Ok(Some(LabelList::Texts(Shared::of(alloc, texts)?))),
        None => Ok(None),
    }
}

#[tactic(auto, using(crate::proofs::Readable::char_values))]
fn has_text_labels(
    alloc: Global,
    source: &Source<'_>,
    var: &StoredVar<'_>,
) -> Result<bool, NoMemory>
    requires { IsReadableVar source.now var.now }
    ensures { IfOk result (λ b. b ≡ is_some (text_labels source.now var.now)) }
{
    if !is_char(var.kind()) {
        return Ok(false);
    }
    let shape = var_shape(alloc, source, var)?;
    let raw = var.raw(alloc)?;
    Ok(are_rows(shape.as_slice(), raw.as_slice()))
}

/// The labels that a variable holds, where it does.
#[tactic(auto, unfolding(xr_defs::specs::Decoding::labels_in))]
pub(crate) fn labels_in(
    alloc: Global,
    source: &Source<'_>,
    var: &StoredVar<'_>,
) -> Result<Option<LabelList>, NoMemory>
    requires { IsReadableVar source.now var.now }
    ensures { IfOk result (λ o. o ≡ labels_in source.now var.now) }
{
    if !is_named_as_first(source, var) {
        return Ok(None);
    }
    if has_number_labels(var) {
        return Ok(Some(numbers_or_times(alloc, var)?));
    }
    text_labels(alloc, source, var)
}

/// Whether a variable holds labels.
#[tactic(auto, unfolding(xr_defs::specs::Decoding::is_index, xr_defs::specs::Decoding::labels_in))]
pub(crate) fn is_index(
    alloc: Global,
    source: &Source<'_>,
    var: &StoredVar<'_>,
) -> Result<bool, NoMemory>
    requires { IsReadableVar source.now var.now }
    ensures { IfOk result (λ b. b ≡ is_index source.now var.now) }
{
    if !is_named_as_first(source, var) {
        return Ok(false);
    }
    if has_number_labels(var) {
        return Ok(true);
    }
    has_text_labels(alloc, source, var)
}

// The attributes that stay beside labels. Those that say how times are counted are theirs.
fn uncoded(list: &LabelList, attrs: Items<Attr>) -> Items<Attr>
    ensures { result ≡ uncoded list.now attrs }
{
    match list {
        LabelList::Times(_, _) => left_without(left_without(attrs, "units"), "calendar"),
        LabelList::Numbers(_, _) | LabelList::Texts(_) => attrs,
    }
}

/// The index that a variable holds, where it does.
pub(crate) fn index_in(
    alloc: Global,
    source: &Source<'_>,
    var: &StoredVar<'_>,
) -> Result<Option<Labels>, NoMemory>
    requires { IsReadableVar source.now var.now }
    ensures { IfOk result (λ o. o ≡ index_in source.now var.now) }
{
    match labels_in(alloc, source, var)? {
        Some(list) => {
            let attrs = copy_without(alloc, "coordinates", var.attrs())?;
            let attrs = uncoded(&list, attrs);
            Ok(Some(Labels { list, attrs }))
        }
        None => Ok(None),
    }
}
