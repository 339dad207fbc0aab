//! Two guests who want one seat.
use crate::{guest_of, reserve};
use pc_model::Memory;
use pc_plain::{PlainCells, pairs};
use std::alloc::Global;

fn is_kept_for_the_first(alloc: Global) -> Result<bool, Memory> {
    let mut book = PlainCells::new(alloc, 100)?;
    let is_first = reserve(&mut book, 7, 1);
    let is_second = reserve(&mut book, 7, 2);
    let guest = guest_of(&mut book, 7);
    let seats = pairs(alloc, &book)?;
    let is_kept = seats.as_slice() == [(7, 1)].as_slice();
    Ok(is_first && !is_second && guest == Some(1) && is_kept)
}

#[test]
fn the_first_guest_has_the_seat(rt: HostRuntime) {
    assert!(rt; is_kept_for_the_first(rt.alloc()) == Ok(true));
}
