//! A walk as it is told a small tree by hand: below the sentinel, node 1, hangs node 2 with key 10, and on
//! its right node 3.
use pc_model::{Field, Side};
use pc_plan::{SENTINEL, Step, Told, Turn, Walk, leads_back, node_of};

const TO_2: [(Told, Step); 5] = [
    (Told::Begin, Step::Visit(SENTINEL)),
    (Told::Version(6), Step::Read(SENTINEL, Field::Left)),
    (Told::Number(2), Step::Visit(2)),
    (Told::Version(4), Step::Read(2, Field::Key)),
    (Told::Number(10), Step::Here(10)),
];

fn comes_to_2(walk: &mut Walk) -> bool {
    for row in &TO_2 {
        if walk.step(row.0) != row.1 {
            return false;
        }
    }
    true
}

/// Walks to a key as far as node 2, and on by the link on that side, which has this number.
fn goes_on(key: u64, side: Side, link: u64, last: Step) -> bool {
    let mut walk = Walk::new(key);
    let comes = comes_to_2(&mut walk);
    let reads = walk.go_on(10) == Turn::Read(2, side.link());
    let ends = walk.step(Told::Number(link)) == last;
    comes && reads && ends
}

#[test]
fn a_walk_goes_to_the_side_of_its_key(rt: HostRuntime) {
    let right = goes_on(12, Side::Right, 3, Step::Visit(3));
    let missing = goes_on(9, Side::Left, 0, Step::Missing(Side::Left, 0));
    let back = goes_on(9, Side::Left, 2, Step::Astray) && goes_on(9, Side::Left, 1, Step::Astray);
    let named = node_of(7) == Some(7) && node_of(0).is_none() && node_of(1 << 32).is_none();
    let met = leads_back(4, &[3, 4]) && !leads_back(5, &[3, 4]);
    assert!(rt; right && missing && back && named && met);
}
