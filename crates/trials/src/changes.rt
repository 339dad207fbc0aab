//! A change is built word by word, and built anew after it was forgotten.
use pc_model::{Field, Reply};
use pc_plan::{Add, Change, Fresh, To};

fn word(field: Field, old: u64, new: To) -> Add {
    Add {
        node: 2,
        field,
        old,
        new,
    }
}

const LEAF: Fresh = Fresh {
    key: 5,
    value: 50,
    parent: 0,
    height: 0,
};

// A change that is built anew after it was forgotten.
fn built() -> Change {
    let mut change = Change::new(Reply::None);
    change.mark_removed(7, 0);
    change.charge(9);
    change.restart(Reply::New);
    change.raise(2, 4);
    change.rewrite(2, Field::Left, 0, To::Fresh);
    change.push(word(Field::Value, 1, To::Number(3)));
    change.charge(7);
    change.charge(5);
    change.fresh = Some(LEAF);
    change
}

fn stands_in_its_order(change: &Change) -> bool {
    let words = [
        word(Field::Version, 4, To::Number(6)),
        word(Field::Left, 0, To::Fresh),
        word(Field::Value, 1, To::Number(3)),
    ];
    let lists = change.adds() == words.as_slice() && change.charged() == [7, 5].as_slice();
    lists && change.mark.is_none() && change.reply == Reply::New
}

// Whether what is marked as removed then is the last word.
fn is_marked(change: &mut Change) -> bool {
    if change.adds().len() >= 24 {
        return false;
    }
    change.mark_removed(3, 8);
    change.mark == Some(3) && change.adds().len() == 4
}

// Whether there is room for 24 words.
fn has_room_for_words(change: &mut Change) -> bool {
    for _ in 0..24 {
        if change.adds().len() >= 24 {
            return false;
        }
        change.raise(2, 4);
    }
    change.adds().len() == 24
}

fn has_room_for_charges(change: &mut Change) -> bool {
    for key in 0..4 {
        if change.charged().len() >= 4 {
            return false;
        }
        change.charge(key);
    }
    change.charged() == [0, 1, 2, 3].as_slice()
}

#[test]
fn a_change_holds_24_words_and_4_charges_in_their_order(rt: HostRuntime) {
    let mut built = built();
    assert!(rt; stands_in_its_order(&built) && is_marked(&mut built));
    let mut change = Change::new(Reply::None);
    assert!(rt; has_room_for_words(&mut change) && has_room_for_charges(&mut change));
}
