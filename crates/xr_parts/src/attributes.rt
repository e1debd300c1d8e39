//! `assign_attrs(name=value)`: attributes of arrays and datasets.
ghost use Rattle.std.specs.Prelude.{◌<◌, ◌≡◌};
ghost use Rattle.xr_parts.specs.Common.{Answers, AnswersArray, AnswersSet, AreAttributes, IfOk, IfSome, IsArrayIn, IsAttribute, IsDatasetIn, List, Node, OnOk, all_of, array_in, dataset_in, given, is_name, length, map, meaning, true, with_key};
ghost use Rattle.xr_defs.specs.Parts as of;
ghost use Rattle.xr_parts.specs.Numbered.{attr_place, in_four_bytes, number_attr};

use std::alloc::{AllocError, Global};
use xr_types::{Attr, CallFault, DeepCopy, Fault, Items, NcType, TextBytes};
use xr_values::{Args, DataArray, Dataset, Value};

#[tactic(auto, using(xr_arguments::proofs::Variants::is_text, xr_arguments::proofs::Variants::is_number, xr_values::proofs::Meaning::meaning_out), unfolding(xr_defs::specs::Parts::check_attr))]
fn check_attr(argument: &(TextBytes, Value)) -> Result<(), CallFault>
    ensures { (nodes : List Node) → Answers (λ u. u) result (of.check_attr (with_key nodes argument.now)) }
{
    match &argument.1 {
        Value::Text(_) => Ok(()),
        Value::Number(_) => Ok(()),
        _ => Err(CallFault::Refused(Fault::WrongKind)),
    }
}

fn check_attrs(keyed: &[(TextBytes, Value)]) -> Result<(), CallFault>
    ensures { (nodes : List Node) → Answers (λ u. u) result (all_of of.check_attr (map (with_key nodes) keyed.now)) }
{
    for argument in keyed {
        check_attr(argument)?;
    }
    Ok(())
}

// A number in the four bytes of type int, where they hold it.
fn int_bytes(alloc: Global, n: i128) -> Result<Option<Items<u8>>, AllocError>
    ensures { IfOk result (λ raw. raw ≡ in_four_bytes n) }
{
    if n < -(1 << 31) || n >= 1 << 31 {
        return Ok(None);
    }
    let bytes = (n as i32).cast_unsigned().to_be_bytes();
    Ok(Some(Items::from_slice(alloc, &bytes)?))
}

#[tactic(auto, using(crate::proofs::Described::number_attr_is, crate::proofs::Described::number_formed))]
fn number_attr(alloc: Global, name: &TextBytes, n: &i128) -> Result<Attr, CallFault>
    requires { is_name name.now ≡ true }
    ensures answers { Answers (λ a. a) result (number_attr name.now n.now) }
    ensures formed { IfOk result IsAttribute }
{
    match int_bytes(alloc, *n)? {
        Some(raw) => Ok(Attr {
            name: name.deep_copy(alloc)?,
            kind: NcType::Int,
            raw,
        }),
        None => Err(CallFault::Refused(Fault::DoesNotFit)),
    }
}

// The attribute of a keyword and its value.
#[tactic(auto, using(crate::proofs::Described::number_given, crate::proofs::Described::text_formed, crate::proofs::Naming::named_text, xr_arguments::proofs::Variants::is_text, xr_arguments::proofs::Variants::is_number, xr_values::proofs::Meaning::meaning_out), unfolding(xr_defs::specs::Parts::attr_given, crate::specs::Numbered::number_attr))]
fn attr_given(alloc: Global, argument: &(TextBytes, Value)) -> Result<Attr, CallFault>
    ensures answers { (nodes : List Node) → Answers (λ a. a) result (of.attr_given (with_key nodes argument.now)) }
    ensures formed { IfOk result IsAttribute }
{
    if argument.0.as_str().len() == 0 {
        // No script has an empty keyword.
        return Err(CallFault::NoMemory);
    }
    match &argument.1 {
        Value::Text(text) => Ok(Attr {
            name: argument.0.deep_copy(alloc)?,
            kind: NcType::Char,
            raw: Items::from_slice(alloc, text.as_bytes())?,
        }),
        Value::Number(n) => number_attr(alloc, &argument.0, n),
        _ => Err(CallFault::Refused(Fault::WrongKind)),
    }
}

#[tactic(auto, unfolding(crate::specs::Numbered::attr_place))]
fn attr_place(attrs: &[Attr], name: &TextBytes) -> Option<usize>
    ensures place { result ≡ attr_place attrs.now name.now }
    ensures inside { IfSome result (λ k. k < length attrs.now) }
{
    attrs.iter().position(|attr| attr.name.is(name))
}

// In the place of the one of its name, or at the end.
#[tactic(auto, using(crate::proofs::Described::put_there, crate::proofs::Described::put_behind))]
fn put_attr(attrs: &mut Items<Attr>, attr: Attr) -> Result<(), AllocError>
    ensures { OnOk result (attrs.new ≡ of.with_attr attrs.old attr) }
{
    match attr_place(attrs.as_slice(), &attr.name) {
        Some(k) => {
            attrs.set(k, attr);
            Ok(())
        }
        None => attrs.push(attr),
    }
}

// The attributes with those that a call gives.
#[tactic(auto, unfolding(xr_defs::specs::Parts::attrs_assigned, xr_defs::specs::Parts::each_attr, xr_types::specs::Results::unless, xr_values::specs::Meaning::given))]
fn attrs_assigned(alloc: Global, attrs: &Items<Attr>, args: &Args) -> Result<Items<Attr>, CallFault>
    ensures answers { (nodes : List Node) → Answers (λ a. a) result (of.attrs_assigned attrs.now (given nodes args.now)) }
    ensures formed { AreAttributes attrs.now → IfOk result AreAttributes }
{
    if args.plain.len() != 0 {
        return Err(CallFault::Refused(Fault::BadArgument));
    }
    let keyed = args.keyed.as_slice();
    check_attrs(keyed)?;
    let mut attrs = attrs.deep_copy(alloc)?;
    for argument in keyed {
        put_attr(&mut attrs, attr_given(alloc, argument)?)?;
    }
    Ok(attrs)
}

/// An array with more attributes, each a text or a whole number of type int.
///
/// # Errors
/// `BadArgument` for a plain argument; then `WrongKind` for a value that is neither a text nor a number; then `DoesNotFit`
/// for a number that isn't one of 32 bits.
#[tactic(auto, using(crate::proofs::Described::array_described), unfolding(xr_defs::specs::Parts::array_with_attrs))]
pub fn array_with_attrs(alloc: Global, on: &DataArray, args: &Args) -> Result<DataArray, CallFault>
    ensures { (nodes : List Node) → IsArrayIn nodes on.now → AnswersArray nodes result (of.array_with_attrs (given nodes args.now) (array_in nodes on.now)) }
{
    let attrs = attrs_assigned(alloc, &on.attrs, args)?;
    let mut array = on.deep_copy(alloc)?;
    array.attrs = attrs;
    Ok(array)
}

/// A dataset with more attributes of its own, each a text or a whole number of type int.
///
/// # Errors
/// As of `array_with_attrs`.
#[tactic(auto, using(crate::proofs::Described::set_described), unfolding(xr_defs::specs::Parts::set_with_attrs))]
pub fn set_with_attrs(alloc: Global, on: &Dataset, args: &Args) -> Result<Dataset, CallFault>
    ensures { (nodes : List Node) → IsDatasetIn nodes on.now → AnswersSet nodes result (of.set_with_attrs (given nodes args.now) (dataset_in nodes on.now)) }
{
    let attrs = attrs_assigned(alloc, &on.attrs, args)?;
    let mut set = on.deep_copy(alloc)?;
    set.attrs = attrs;
    Ok(set)
}
