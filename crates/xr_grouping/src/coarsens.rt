//! `coarsen(d=w, .., boundary, coord_func)`: the sizes of its blocks, and what it does with a rest and with labels.
ghost use Rattle.std.specs.Prelude.{◌≡◌, ◌≤◌, ◌||◌, List, IfOk, codes, map, filter, not, option_map};
ghost use Rattle.std.specs.Str.{bytes_eq};
ghost use Rattle.xr_arrays.specs.declared.node.Node.{Node};
ghost use Rattle.xr_defs.specs.Building as building;
ghost use Rattle.xr_defs.specs.Selecting as selecting;
ghost use Rattle.xr_defs.specs.declared.grouping.Grouping.TheVariants.{Blocks};
ghost use Rattle.xr_groups.specs.Calls as calls;
ghost use Rattle.xr_types.specs.Results.{Answers};
ghost use Rattle.xr_values.specs.Meaning.{given, meaning, with_key};
ghost use Rattle.xr_grouping.specs.Sizes.{more_blocks};

use std::alloc::Global;
use xr_arguments::{as_text, option};
use xr_defs::BlockSize;
use xr_types::{CallFault, DeepCopy, Fault, FoldKind, Items, TextBytes};
use xr_values::{Args, Value};

fn keyword<'a>(name: &str, keyed: &'a [(TextBytes, Value)]) -> Option<&'a Value>
    ensures { (nodes : List Node) → option_map (λ v. meaning nodes v.now) result ≡ building.keyword name.now (map (with_key nodes) keyed.now) }
{
    match keyed {
        [] => None,
        [argument, rest @ ..] => {
            if argument.0.as_str() == name {
                Some(&argument.1)
            } else {
                keyword(name, rest)
            }
        }
    }
}

// The argument by this keyword. `None` is no argument.
pub(crate) fn option_by<'a>(name: &str, keyed: &'a [(TextBytes, Value)]) -> Option<&'a Value>
    ensures { (nodes : List Node) → option_map (λ v. meaning nodes v.now) result ≡ building.given_value (building.keyword name.now (map (with_key nodes) keyed.now)) }
{
    option(&[keyword(name, keyed)], 0)
}

#[tactic(auto, unfolding(xr_groups::specs::Calls::boundary_called))]
fn boundary_called(text: &str) -> Result<bool, CallFault>
    ensures { Answers (λ b. b) result (calls.boundary_called text.now) }
{
    if text == "exact" {
        return Ok(false);
    }
    if text == "trim" {
        return Ok(true);
    }
    Err(CallFault::Refused(Fault::BadArgument))
}

#[tactic(auto, unfolding(xr_groups::specs::Calls::trim_given))]
fn trim_given(value: Option<&Value>) -> Result<bool, CallFault>
    ensures { (nodes : List Node) → Answers (λ b. b) result (calls.trim_given (option_map (λ v. meaning nodes v.now) value.entry)) }
{
    match value {
        None => Ok(false),
        Some(value) => {
            let text = as_text(value)?;
            boundary_called(text.as_str())
        }
    }
}

#[tactic(auto, unfolding(xr_groups::specs::Calls::func_called))]
fn func_called(text: &str) -> Result<FoldKind, CallFault>
    ensures { Answers (λ k. k) result (calls.func_called text.now) }
{
    if text == "min" {
        return Ok(FoldKind::Min);
    }
    if text == "max" {
        return Ok(FoldKind::Max);
    }
    if text == "sum" {
        return Ok(FoldKind::Sum);
    }
    Err(CallFault::Refused(Fault::BadArgument))
}

#[tactic(auto, unfolding(xr_groups::specs::Calls::func_given))]
fn func_given(value: Option<&Value>) -> Result<Option<FoldKind>, CallFault>
    ensures { (nodes : List Node) → Answers (λ k. k) result (calls.func_given (option_map (λ v. meaning nodes v.now) value.entry)) }
{
    match value {
        None => Ok(None),
        Some(value) => {
            let text = as_text(value)?;
            let func = func_called(text.as_str())?;
            Ok(Some(func))
        }
    }
}

#[tactic(auto, using(xr_arguments::proofs::Variants::is_number, xr_values::proofs::Meaning::meaning_out), unfolding(xr_defs::specs::Selecting::as_number))]
fn as_number(value: &Value) -> Result<i128, CallFault>
    ensures { (nodes : List Node) → Answers (λ n. n) result (selecting.as_number (meaning nodes value.now)) }
{
    match value {
        Value::Number(number) => Ok(*number),
        _ => Err(CallFault::Refused(Fault::WrongKind)),
    }
}

#[tactic(auto, using(crate::proofs::Sized::below_one, crate::proofs::Sized::at_least_one))]
fn from_one(number: i128) -> Result<u128, CallFault>
    ensures number { Answers (λ n. n) result (calls.from_one number) }
    ensures some { IfOk result (λ n. 1 ≤ n) }
{
    if number < 1 {
        Err(CallFault::Refused(Fault::BadArgument))
    } else {
        Ok(number.unsigned_abs())
    }
}

// No axis has more positions: above that a size says no more than whether it is even.
pub(crate) fn bounded(size: u128) -> u64
    ensures size { result ≡ calls.bounded size }
    ensures some { 1 ≤ size → 1 ≤ result }
{
    if size < 4_294_967_296 {
        size as u64
    } else {
        4_294_967_296 + (size % 2) as u64
    }
}

#[tactic(auto, unfolding(xr_groups::specs::Calls::size_given))]
pub(crate) fn size_given(value: &Value) -> Result<u128, CallFault>
    ensures size { (nodes : List Node) → Answers (λ n. n) result (calls.size_given (meaning nodes value.now)) }
    ensures some { IfOk result (λ n. 1 ≤ n) }
{
    let number = as_number(value)?;
    from_one(number)
}

#[tactic(auto, unfolding(xr_groups::specs::Calls::block_given))]
fn block_given(alloc: Global, argument: &(TextBytes, Value)) -> Result<BlockSize, CallFault>
    ensures { (nodes : List Node) → Answers (λ b. b) result (calls.block_given (with_key nodes argument.now)) }
{
    let size = size_given(&argument.1)?;
    Ok(BlockSize {
        dimension: argument.0.deep_copy(alloc)?,
        size: bounded(size),
    })
}

fn is_option(name: &str) -> bool
    ensures { result ≡ (bytes_eq name.now (codes "boundary") || bytes_eq name.now (codes "coord_func")) }
{
    name == "boundary" || name == "coord_func"
}

// Adds a block for each argument that names a dimension.
#[tactic(auto, using(crate::proofs::Sized::more_none, crate::proofs::Sized::more_after, crate::proofs::Sized::more_fault))]
fn push_blocks(
    alloc: Global,
    out: &mut Items<BlockSize>,
    keyed: &[(TextBytes, Value)],
) -> Result<(), CallFault>
    ensures { (nodes : List Node) → Answers (λ u. out.new) result (more_blocks out.old (filter (λ kv. not (calls.is_coarsen_option kv)) (map (with_key nodes) keyed.now))) }
{
    match keyed {
        [] => Ok(()),
        [argument, rest @ ..] => {
            if is_option(argument.0.as_str()) {
                return push_blocks(alloc, out, rest);
            }
            let block = block_given(alloc, argument)?;
            out.push(block)?;
            push_blocks(alloc, out, rest)
        }
    }
}

#[tactic(auto, using(crate::proofs::Sized::none_before))]
fn blocks_given(alloc: Global, keyed: &[(TextBytes, Value)]) -> Result<Items<BlockSize>, CallFault>
    ensures { (nodes : List Node) → Answers (λ bs. bs) result (calls.blocks_given (filter (λ kv. not (calls.is_coarsen_option kv)) (map (with_key nodes) keyed.now))) }
{
    let mut out = Items::new(alloc);
    push_blocks(alloc, &mut out, keyed)?;
    Ok(out)
}

/// What the arguments of `coarsen` ask for.
#[derive(Drop)]
pub struct Asked {
    pub sizes: Items<BlockSize>,
    pub trim: bool,
    pub labels: Option<FoldKind>,
}

/// What the arguments of `coarsen` ask for.
#[tactic(auto, unfolding(xr_groups::specs::Calls::coarsen_given, xr_types::specs::Results::unless, xr_values::specs::Meaning::given))]
pub fn coarsen_given(alloc: Global, args: &Args) -> Result<Asked, CallFault>
    ensures { (nodes : List Node) → Answers (λ b. Blocks b.sizes b.trim b.labels) result (calls.coarsen_given (given nodes args.now)) }
{
    if args.plain.len() != 0 {
        return Err(CallFault::Refused(Fault::BadArgument));
    }
    let keyed = args.keyed.as_slice();
    let trim = trim_given(option_by("boundary", keyed))?;
    let labels = func_given(option_by("coord_func", keyed))?;
    let sizes = blocks_given(alloc, keyed)?;
    Ok(Asked {
        sizes,
        trim,
        labels,
    })
}
