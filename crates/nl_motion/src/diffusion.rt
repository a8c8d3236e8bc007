//! What patches give to each other.
//!
//! Counts are those of millionths. What is given is worked out from the old field of a variable alone, and all memory is taken before
//! anything changes.
ghost use Rattle.std.specs.Prelude.{ℕ, ◌^◌, ◌*◌, unsigned_abs, Contains, ◌≡◌, ◌⊎◌, ◌<◌, ◌≤◌, ◌≤ℤ◌, pos, map, length, IsTrue, false, IfOk, IfErr, OnOk, OnErr, true, IsSome};
ghost use Rattle.nl_fixed.specs.Numbers.{one, number_at};
ghost use Rattle.nl_grid.specs.Geometry.{patches_of, all_patches};
ghost use Rattle.nl_value.specs.Plain.{PlainNumber};
ghost use Rattle.nl_agents.specs.Changes.{value_of, revalued};
ghost use Rattle.nl_motion.specs.Diffusion.{are_numbers, field_of, total, parts_of, one_share, count_at, kept_by, count_after, diffused_field, field_set, diffused, is_part, are_in_range, diffuse_fault, IsRefusedFor};

use crate::faults::MoveFault;
use crate::numbers::number_of;
use crate::ring::Ring;
use nl_agents::{Owner, Store};
use nl_fixed::{NoMemory, Num};
use nl_grid::Shape;
use nl_value::Value;
use std::alloc::Global;

/// How many millionths make 1.
const ONE: i64 = 1_000_000;

/// Is it a part from 0 to 1?
pub(crate) fn is_part(part: i64) -> bool
    ensures { result ≡ is_part part }
{
    0 <= part && part <= ONE
}

/// The counts that the patches keep under a slot, in order. `WrongType` where one keeps no number.
fn field_of<S: Store>(alloc: Global, store: &S, slot: u32) -> Result<Vec<i64>, MoveFault>
    ensures field { IfOk result (λ field. field.items ≡ field_of slot (S.world store.now)) }
    ensures numbers { OnOk result (are_numbers slot (S.world store.now) ≡ true) }
    ensures refused { IfErr result (λ why. (why ≡ MoveFault.NoMemory)
        ⊎ ((why ≡ MoveFault.WrongType) × (are_numbers slot (S.world store.now) ≡ false))) }
{
    let mut field = Vec::new(alloc);
    for patch in 0..store.shape().patches() {
        match number_of(store, Owner::Patch(patch), slot) {
            Some(number) => field.push(number.millionths())?,
            None => return Err(MoveFault::WrongType),
        }
    }
    Ok(field)
}

/// One share of a count, where a part of so many millionths is divided into eight shares, or into four.
fn one_share(count: i64, part: i64, four: bool) -> i64
    requires low { pos 0 ≤ℤ part }
    requires high { part ≤ℤ pos one }
    ensures { result ≡ one_share (parts_of four) part count }
{
    let all = i128::from(count) * i128::from(part);
    let parts = if four { 4_000_000 } else { 8_000_000 };
    all.div_euclid(parts) as i64
}

/// One share of each count.
fn shares_of(alloc: Global, field: &[i64], part: i64, four: bool) -> Result<Vec<i64>, NoMemory>
    requires low { pos 0 ≤ℤ part }
    requires high { part ≤ℤ pos one }
    ensures { IfOk result (λ shares. shares.items ≡ map (one_share (parts_of four) part) field.now) }
{
    let mut shares = Vec::new(alloc);
    for count in field {
        shares.push(one_share(*count, part, four))?;
    }
    Ok(shares)
}

/// What a patch keeps that has so many neighbors.
fn kept(field: &[i64], shares: &[i64], patch: u32, neighbors: usize) -> i128
    requires field { patch < length field.now }
    requires shares { patch < length shares.now }
    requires few { neighbors ≤ 8 }
    ensures value { result ≡ kept_by neighbors field.now shares.now patch }
    ensures small { unsigned_abs result ≤ 9 * 2 ^ 63 }
{
    let given = neighbors as i128 * i128::from(shares[patch as usize]);
    i128::from(field[patch as usize]) - given
}

/// What a patch gets of its neighbors.
fn got(shares: &[i64], neighbors: &[u32]) -> i128
    requires shares { (patch : ℕ) → Contains neighbors.now patch → patch < length shares.now }
    requires few { length neighbors.now ≤ 8 }
    ensures value { result ≡ total (map (count_at shares.now) neighbors.now) }
    ensures small { unsigned_abs result ≤ 8 * 2 ^ 63 }
{
    let mut sum = 0;
    for other in neighbors {
        sum += i128::from(shares[*other as usize]);
    }
    sum
}

/// The number of a count, where it is in range.
fn number_at(count: i128) -> Option<Num>
    ensures { result ≡ number_at count }
{
    match i64::try_from(count) {
        Ok(count) => Num::new(count),
        Err(_) => None,
    }
}

/// What a patch has after all gave: what it had, less a share for each of its neighbors, and a share of each of them. None where that is
/// out of the range of numbers.
fn count_after(shape: &Shape, field: &[i64], shares: &[i64], patch: u32, four: bool) -> Option<Num>
    requires patch { patch < patches_of shape.now }
    requires field { length field.now ≡ patches_of shape.now }
    requires shares { length shares.now ≡ patches_of shape.now }
    ensures { result ≡ number_at (count_after four shape.now field.now shares.now patch) }
{
    let ring = Ring::around(shape, patch, four);
    let neighbors = ring.as_slice();
    let kept = kept(field, shares, patch, neighbors.len());
    number_at(kept + got(shares, neighbors))
}

/// The field after all patches gave a part of it, of so many millionths. `Overflow` where a count is out of the range of numbers.
pub(crate) fn diffused(
    alloc: Global,
    shape: &Shape,
    field: &[i64],
    part: i64,
    four: bool,
) -> Result<Vec<Num>, MoveFault>
    requires low { pos 0 ≤ℤ part }
    requires high { part ≤ℤ pos one }
    requires field { length field.now ≡ patches_of shape.now }
    ensures counts { IfOk result (λ counts. counts.items ≡ diffused_field four shape.now part field.now) }
    ensures range { OnOk result (are_in_range (diffused_field four shape.now part field.now) ≡ true) }
    ensures refused { let after = diffused_field four shape.now part field.now in
        IfErr result (λ why. (why ≡ MoveFault.NoMemory)
        ⊎ ((why ≡ MoveFault.Overflow) × (are_in_range after ≡ false))) }
{
    let shares = shares_of(alloc, field, part, four)?;
    let mut counts = Vec::new(alloc);
    for patch in 0..shape.patches() {
        match count_after(shape, field, shares.as_slice(), patch, four) {
            Some(count) => counts.push(count)?,
            None => return Err(MoveFault::Overflow),
        }
    }
    Ok(counts)
}

/// A patch keeps a number under a slot that it owns.
fn set_number<S: Store>(store: &mut S, patch: u32, slot: u32, count: Num)
    requires patch { patch < patches_of (S.world store.old).rest.shape }
    requires owned { IsSome (value_of (Owner.Patch patch) slot (S.world store.old)) }
    ensures { S.world store.new ≡ revalued (Owner.Patch patch) slot (PlainNumber count) (S.world store.old) }
{
    let _old = store.set_var(Owner::Patch(patch), slot, Value::Number(count));
}

/// The patches keep the numbers of a list under a slot, in order. It takes no memory.
fn set_field<S: Store>(store: &mut S, slot: u32, counts: &[Num])
    requires many { length counts.now ≡ patches_of (S.world store.old).rest.shape }
    requires numbers { are_numbers slot (S.world store.old) ≡ true }
    ensures { S.world store.new ≡ field_set slot counts.now (S.world store.old) }
{
    for patch in 0..store.shape().patches() {
        set_number(store, patch, slot, counts[patch as usize]);
    }
}

/// All patches give a part of what they keep under a slot to their neighbors, at once: it is divided into eight shares, or into four, and
/// each neighbor gets one. A share is cut to whole millionths, and what isn't given the patch keeps; so the sum over all patches stays.
/// The neighbors are all, or the four that are one step away on one axis.
///
/// `Domain` where the part isn't from 0 to 1; then `WrongType` where a patch keeps no number under the slot; then `Overflow` where a patch
/// would have more than a number may be. Where it is refused, also for want of memory, nothing is changed. It takes memory and time in
/// proportion to the patches.
pub fn diffuse<S: Store>(
    alloc: Global,
    store: &mut S,
    slot: u32,
    share: Num,
    four: bool,
) -> Result<(), MoveFault>
    ensures world { OnOk result (S.world store.new ≡ diffused slot share four (S.world store.old)) }
    ensures kept { OnErr result (S.world store.new ≡ S.world store.old) }
    ensures cause { IsRefusedFor (diffuse_fault slot share four (S.world store.old)) result }
    ensures sum { OnOk result
        (total (field_of slot (S.world store.new)) ≡ total (field_of slot (S.world store.old))) }
{
    let part = share.millionths();
    if !is_part(part) {
        return Err(MoveFault::Domain);
    }
    let field = field_of(alloc, store, slot)?;
    let shape = store.shape();
    let counts = diffused(alloc, &shape, field.as_slice(), part, four)?;
    set_field(store, slot, counts.as_slice());
    Ok(())
}
