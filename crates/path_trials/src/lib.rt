//! Trials of operations along a path, each compared with what was worked out by hand. Three passes share each board.
#![tactic(auto)]

#[cfg(test)]
mod acting;
#[cfg(test)]
mod changes;
#[cfg(test)]
mod counters;
#[cfg(test)]
mod reads;
#[cfg(test)]
mod recording;
#[cfg(test)]
mod spares;
#[cfg(test)]
mod stopping;
#[cfg(test)]
mod stops;
#[cfg(test)]
mod trio;
