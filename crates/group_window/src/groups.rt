//! Groups of positions with equal keys.
ghost use Rattle.std.specs.Prelude.{◌≡◌, ◌≤◌, [], length, map, option_map, IfOk, OnOk, Some};
ghost use Rattle.std.specs.Ordering.{int_cmp, nat_cmp};
ghost use Rattle.std.specs.Cmp.Lexicographic.{slice_cmp};
ghost use Rattle.std.specs.List.Sorted.{IsStrictlySortedBy};
ghost use Rattle.std.specs.BTreeMap as tree;
ghost use Rattle.xr_groups.specs.Groups as of;
ghost use Rattle.group_window.specs.Ranks.{rank, ranks};

use crate::bins::bin_lists;
use std::alloc::{AllocError, Global};
use std::collections::BTreeMap;
use xr_arrays::Feeds;
use xr_types::{Items, TextBytes};

// Adds a key, unless it is there or missing.
#[tactic(auto, using(crate::proofs::Ranked::keys_put))]
fn put_key<K: Ord + Copy>(seen: &mut BTreeMap<K, ()>, key: Option<K>) -> Result<(), AllocError>
    ensures { OnOk result (tree.keys seen.new ≡ of.put_key K.cmp (tree.keys seen.old) key) }
{
    match key {
        None => Ok(()),
        Some(key) => {
            seen.insert(key, ())?;
            Ok(())
        }
    }
}

// The keys in ascending order, each once.
#[tactic(auto, unfolding(xr_groups::specs::Groups::distinct))]
fn seen_keys<K: Ord + Copy>(
    alloc: Global,
    keys: &[Option<K>],
) -> Result<BTreeMap<K, ()>, AllocError>
    ensures { IfOk result (λ m. tree.keys m ≡ of.distinct K.cmp keys.now) }
{
    let mut seen = BTreeMap::new(alloc);
    for key in keys {
        put_key(&mut seen, *key)?;
    }
    Ok(seen)
}

fn distinct<K: Ord + Copy>(alloc: Global, keys: &[Option<K>]) -> Result<Vec<K>, AllocError>
    ensures keys { IfOk result (λ v. v.items ≡ of.distinct K.cmp keys.now) }
    ensures sorted { IfOk result (λ v. IsStrictlySortedBy K.cmp v.items) }
{
    let seen = seen_keys(alloc, keys)?;
    seen.into_keys().collect(alloc)
}

// The place of a key.
fn rank<K: Ord + Copy>(distinct: &[K], key: &Option<K>) -> u32
    requires few { length distinct.now ≤ 4294967295 }
    requires sorted { IsStrictlySortedBy K.cmp distinct.now }
    ensures { result ≡ rank K.cmp distinct.now key.now }
{
    match key {
        None => distinct.len() as u32,
        Some(key) => match distinct.binary_search(key) {
            Ok(place) => place as u32,
            Err(_) => distinct.len() as u32,
        },
    }
}

fn ranks<K: Ord + Copy>(
    alloc: Global,
    distinct: &[K],
    keys: &[Option<K>],
) -> Result<Vec<u32>, AllocError>
    requires few { length distinct.now ≤ 4294967295 }
    requires sorted { IsStrictlySortedBy K.cmp distinct.now }
    ensures { IfOk result (λ v. v.items ≡ ranks K.cmp distinct.now keys.now) }
{
    let mut out = Vec::with_capacity(alloc, keys.len())?;
    for key in keys {
        out.push(rank(distinct, key))?;
    }
    Ok(out)
}

// For each distinct key the positions that have it.
fn lists<K: Ord + Copy>(
    alloc: Global,
    distinct: &[K],
    keys: &[Option<K>],
) -> Result<Feeds, AllocError>
    requires sorted { IsStrictlySortedBy K.cmp distinct.now }
    requires keys { distinct.now ≡ of.distinct K.cmp keys.now }
    ensures { IfOk result (λ f. f ≡ of.group_lists K.cmp keys.now) }
{
    if distinct.len() > u32::MAX as usize {
        return Err(AllocError);
    }
    let places = ranks(alloc, distinct, keys)?;
    let lists = bin_lists(alloc, distinct.len() as u64, &places)?;
    Ok(lists)
}

/// Groups of positions by whole numbers: the distinct ones in ascending order, and for each the positions that have it.
#[derive(Drop)]
pub struct NumberGroups {
    pub keys: Items<i128>,
    pub lists: Feeds,
}

/// The groups of positions by their keys. A position whose key is missing is in none.
pub fn number_groups(alloc: Global, keys: &[Option<i128>]) -> Result<NumberGroups, AllocError>
    ensures keys { IfOk result (λ g. g.keys ≡ of.distinct int_cmp keys.now) }
    ensures lists { IfOk result (λ g. g.lists ≡ of.group_lists int_cmp keys.now) }
{
    let distinct = distinct(alloc, keys)?;
    let lists = lists(alloc, &distinct, keys)?;
    let keys = Items::of(distinct);
    Ok(NumberGroups { keys, lists })
}

/// Groups of positions by texts: the distinct ones in ascending order of their bytes, and for each the positions that have it.
#[derive(Drop)]
pub struct TextGroups {
    pub keys: Items<TextBytes>,
    pub lists: Feeds,
}

// Texts as keys.
fn text_keys<'a>(alloc: Global, texts: &'a [TextBytes]) -> Result<Vec<Option<&'a str>>, AllocError>
    ensures { IfOk result (λ v. map (option_map (λ k. k.now)) v.items ≡ of.each_key texts.now) }
{
    let mut keys = Vec::with_capacity(alloc, texts.len())?;
    for text in texts {
        keys.push(Some(text.as_str()))?;
    }
    Ok(keys)
}

// A copy of each text.
fn copied(alloc: Global, texts: &[&str]) -> Result<Items<TextBytes>, AllocError>
    ensures { IfOk result (λ ts. ts ≡ map (λ k. k.now) texts.now) }
{
    let mut out = Items::new(alloc);
    for text in texts {
        out.push(TextBytes::from_str(alloc, text)?)?;
    }
    Ok(out)
}

/// The groups of positions by their texts.
pub fn text_groups(alloc: Global, texts: &[TextBytes]) -> Result<TextGroups, AllocError>
    ensures keys { IfOk result (λ g. g.keys ≡ of.distinct (slice_cmp nat_cmp) (of.each_key texts.now)) }
    ensures lists { IfOk result (λ g. g.lists ≡ of.group_lists (slice_cmp nat_cmp) (of.each_key texts.now)) }
{
    let keys = text_keys(alloc, texts)?;
    let distinct = distinct(alloc, &keys)?;
    let lists = lists(alloc, &distinct, &keys)?;
    let keys = copied(alloc, &distinct)?;
    Ok(TextGroups { keys, lists })
}
