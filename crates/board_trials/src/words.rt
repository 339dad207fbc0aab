//! Worked values of the layout.
ghost use Rattle.pc_words.specs.Statuses.{StatusInRange};
ghost use Rattle.pc_words.specs.Words.{IsWord};

use pc_words::{Stage, Status, WordKind, exchange_ref, install_ref, kind_of, pack, plain, unpack};

// Whether a word that was packed is this number, and is told again.
fn is_stored(word: u64, number: u64, kind: WordKind) -> bool
    requires { IsWord word }
{
    word == number && kind_of(word) == kind
}

// Whether a status is packed to this number, and is told again.
fn is_packed(number: u64, stage: Stage, word: u64) -> bool
    requires { StatusInRange (record { number = number; stage = stage }) }
{
    let status = Status { number, stage };
    let packed = pack(status);
    packed == word && unpack(packed) == status
}

#[test]
fn words_of_nodes_are_stored_as_described(rt: HostRuntime) {
    let rows = [
        is_stored(plain(50), 200, WordKind::Plain(50)),
        // The key of the sentinel.
        is_stored(
            plain(4611686018427387903),
            18446744073709551612,
            WordKind::Plain(4611686018427387903),
        ),
        is_stored(
            exchange_ref(3, 7),
            7182,
            WordKind::Exchange { seat: 3, number: 7 },
        ),
        is_stored(
            install_ref(1, 5),
            5125,
            WordKind::Install { seat: 1, number: 5 },
        ),
    ];
    assert_eq!(rt; rows, [true; 4]);
}

#[test]
fn statuses_are_stored_as_described(rt: HostRuntime) {
    let rows = [
        is_packed(0, Stage::Idle, 0),
        is_packed(7, Stage::Undecided, 29),
        is_packed(7, Stage::Succeeded { stamp: 9 }, 9663676446),
        is_packed(7, Stage::Withdrawn, 31),
        is_packed(1, Stage::Changed { node: 5 }, 10737418247),
        is_packed(1, Stage::Locked { node: 5, seat: 2 }, 281486787870727),
    ];
    assert_eq!(rt; rows, [true; 6]);
}
