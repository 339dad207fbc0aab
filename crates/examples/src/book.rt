//! A book of reservations on plain cells: which guest has which seat.
ghost use Rattle.std.specs.Prelude.{◌≡◌, is_none};
ghost use Rattle.pc_model.specs.Map.{IsKey, IsPair, Pairs, put, value_at};
ghost use Rattle.examples.specs.Book.{IsBook, HasSeatLeft, reserved};

use pc_bst::{BstGet, BstPut, plans_end_as_their_calls_do};
use pc_model::Reply;
use pc_plain::{PlainCells, quiet_plans_change_nothing, run_plan};

/// The guest who has a seat. The book stays as it is.
pub fn guest_of(book: &mut PlainCells, seat: u64) -> Option<u64>
    requires seat { IsKey seat }
    requires book { (ps : Pairs) × IsBook book.old ps }
    ensures guest { (ps : Pairs) → IsBook book.old ps → result ≡ value_at seat ps }
    ensures stays { book.new ≡ book.old }
{
    plans_end_as_their_calls_do();
    quiet_plans_change_nothing::<BstGet>();
    match run_plan::<BstGet>(book, seat) {
        Ok(Reply::Value(guest)) => Some(guest),
        _ => None,
    }
}

/// Reserves a seat for a guest where it is free, and says whether it was.
pub fn reserve(book: &mut PlainCells, seat: u64, guest: u64) -> bool
    requires pair { IsPair (seat, guest) }
    requires left { HasSeatLeft book.old }
    ensures free { (ps : Pairs) → IsBook book.old ps → result ≡ is_none (value_at seat ps) }
    ensures book { (ps : Pairs) → IsBook book.old ps → IsBook book.new (reserved seat guest ps) }
    ensures size { book.new.slots ≡ book.old.slots }
{
    let is_free = guest_of(book, seat).is_none();
    if is_free {
        take_seat(book, seat, guest);
    }
    is_free
}

// Writes the guest at the seat, whoever had it.
fn take_seat(book: &mut PlainCells, seat: u64, guest: u64)
    requires pair { IsPair (seat, guest) }
    requires left { HasSeatLeft book.old }
    ensures book { (ps : Pairs) → IsBook book.old ps → IsBook book.new (put seat guest ps) }
    ensures size { book.new.slots ≡ book.old.slots }
{
    match run_plan::<BstPut>(book, (seat, guest)) {
        Ok(_) => {}
        Err(_) => unreachable!(),
    }
}
