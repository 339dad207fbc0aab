//! Plans that are told what stands in a table, what they ask for then, and the exchange that they write at last.
use pc_avl::{AvlGet, AvlPut, AvlRemove, debts};
use pc_bst::{BstGet, BstPut, BstRemove};
use pc_model::{Call, Field, Reply};
use pc_order::{CeilPlan, FloorPlan};
use pc_plan::{Add, Change, Fresh, Plan, To, Told, Turn};

/// What a plan is told, and what it asks next.
pub type Row = (Told, Turn);

/// A node, its field, the old number, and what the word gets.
pub type Word = (u32, Field, u64, To);

/// A plan that is begun, with small keys and values.
#[derive(Clone, Copy)]
pub enum Begun {
    BstGet(u32),
    BstPut(u32, u32),
    BstRemove(u32),
    AvlGet(u32),
    AvlPut(u32, u32),
    AvlRemove(u32),
    Ceil(u32),
    Floor(u32),
}

/// What an exchange is: its words, the keys that it charges, its fresh node, its mark and its reply.
#[derive(Clone, Copy)]
pub struct Exchange {
    pub words: &'static [Word],
    pub charged: &'static [u64],
    pub fresh: Option<Fresh>,
    pub mark: Option<u32>,
    pub reply: Reply,
}

/// A plan, what it is told part by part, and the exchange that it writes, where it asks for one at last.
pub type Case = (Begun, &'static [&'static [Row]], Option<Exchange>);

/// The first case of a table in which the plan asks otherwise, or writes another exchange.
pub fn first_told_otherwise(cases: &[Case]) -> Option<usize> {
    for (i, case) in cases.iter().enumerate() {
        if !is_as_told(*case) {
            return Some(i);
        }
    }
    None
}

pub fn first_of_each(tables: [&[Case]; 4]) -> [Option<usize>; 4] {
    [
        first_told_otherwise(tables[0]),
        first_told_otherwise(tables[1]),
        first_told_otherwise(tables[2]),
        first_told_otherwise(tables[3]),
    ]
}

fn is_as_told(case: Case) -> bool {
    let (begun, parts, exchange) = case;
    match begun {
        Begun::BstGet(key) => ends_so(BstGet::begin(u64::from(key)), parts, exchange),
        Begun::BstPut(key, value) => {
            ends_so(
                BstPut::begin((u64::from(key), u64::from(value))),
                parts,
                exchange,
            )
        }
        Begun::BstRemove(key) => ends_so(BstRemove::begin(u64::from(key)), parts, exchange),
        Begun::AvlGet(key) => ends_so(AvlGet::begin(u64::from(key)), parts, exchange),
        Begun::AvlPut(key, value) => {
            ends_so(
                AvlPut::begin((u64::from(key), u64::from(value))),
                parts,
                exchange,
            )
        }
        Begun::AvlRemove(key) => ends_so(AvlRemove::begin(u64::from(key)), parts, exchange),
        Begun::Ceil(key) => ends_so(CeilPlan::begin(u64::from(key)), parts, exchange),
        Begun::Floor(key) => ends_so(FloorPlan::begin(u64::from(key)), parts, exchange),
    }
}

fn ends_so<P: Plan>(mut plan: P, parts: &[&[Row]], exchange: Option<Exchange>) -> bool {
    let mut change = Change::new(Reply::None);
    for rows in parts {
        if !asks_so(&mut plan, &mut change, rows) {
            return false;
        }
    }
    match exchange {
        Some(exchange) => is_written(&change, exchange),
        None => true,
    }
}

fn asks_so<P: Plan>(plan: &mut P, change: &mut Change, rows: &[Row]) -> bool {
    for row in rows {
        if plan.step(row.0, change) != row.1 {
            return false;
        }
    }
    true
}

/// Whether the exchange that a plan wrote is this one.
pub fn is_written(change: &Change, exchange: Exchange) -> bool {
    let lists = are_words(change.adds(), exchange.words) && debts(change) == exchange.charged;
    let rest = change.fresh == exchange.fresh && change.mark == exchange.mark;
    lists && rest && change.reply == exchange.reply
}

fn are_words(adds: &[Add], words: &[Word]) -> bool {
    if adds.len() != words.len() {
        return false;
    }
    for (i, add) in adds.iter().enumerate() {
        if (add.node, add.field, add.old, add.new) != words[i] {
            return false;
        }
    }
    true
}

/// The entry that a call of the plan has in a history.
pub fn entry_of(begun: Begun) -> Option<Call> {
    match begun {
        Begun::BstGet(key) => BstGet::entry(u64::from(key)),
        Begun::BstPut(key, value) => BstPut::entry((u64::from(key), u64::from(value))),
        Begun::BstRemove(key) => BstRemove::entry(u64::from(key)),
        Begun::AvlGet(key) => AvlGet::entry(u64::from(key)),
        Begun::AvlPut(key, value) => AvlPut::entry((u64::from(key), u64::from(value))),
        Begun::AvlRemove(key) => AvlRemove::entry(u64::from(key)),
        Begun::Ceil(key) => CeilPlan::entry(u64::from(key)),
        Begun::Floor(key) => FloorPlan::entry(u64::from(key)),
    }
}
