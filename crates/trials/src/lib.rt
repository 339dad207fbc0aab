//! Trials of the library crates, compared with what was worked out by hand: scripts, printed runs, sources and sinks;
//! what the plans ask for as they are told a small tree, and the exchanges that they write; whole runs on plain cells,
//! and those of the map with its history, also where threads share it; and what the top calls of the programs read,
//! answer and print. It stands above the crates that it tries, so that these are proved without tests, and is one crate,
//! since each crate of tests costs a program's link.
#![tactic(auto)]

#[cfg(test)]
mod avl_steps;
#[cfg(test)]
mod bst_steps;
#[cfg(test)]
mod changes;
#[cfg(test)]
mod crowds;
#[cfg(test)]
mod debts;
#[cfg(test)]
mod edges;
#[cfg(test)]
mod gatherings;
#[cfg(test)]
mod locked_maps;
#[cfg(test)]
mod locked_runs;
#[cfg(test)]
mod made;
#[cfg(test)]
mod meetings;
#[cfg(test)]
mod order_steps;
#[cfg(test)]
mod owed_runs;
#[cfg(test)]
mod plain_runs;
#[cfg(test)]
mod printing;
#[cfg(test)]
mod repair_runs;
#[cfg(test)]
mod repair_steps;
#[cfg(test)]
mod replays;
#[cfg(test)]
mod scripts;
#[cfg(test)]
mod served_inputs;
#[cfg(test)]
mod served_large;
#[cfg(test)]
mod served_made;
#[cfg(test)]
mod served_words;
#[cfg(test)]
mod serving;
#[cfg(test)]
mod shapes;
#[cfg(test)]
mod tables;
#[cfg(test)]
mod told;
#[cfg(test)]
mod walks;
#[cfg(test)]
mod words;
