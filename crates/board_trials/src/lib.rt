//! Trials of boards and of what they are made of, each compared with what was worked out by hand. It
//! stands above the crates that it tries, so that these are proved without tests.
#![tactic(auto)]

#[cfg(test)]
mod boards;
#[cfg(test)]
mod deciding;
#[cfg(test)]
mod ends;
#[cfg(test)]
mod exchanges;
#[cfg(test)]
mod helps;
#[cfg(test)]
mod meetings;
#[cfg(test)]
mod rows;
#[cfg(test)]
mod steps;
#[cfg(test)]
mod withdrawals;
#[cfg(test)]
mod words;
