//! A pool of workers, one for each client and each in a thread of its own where one can be made. What a worker
//! does stands in its own steps; the pool says that each was done once and in order. Nothing is shared here:
//! what workers share lies behind their own types.
#![tactic(auto)]

mod pool;
mod worker;

pub use pool::{run_client, run_clients};
pub use worker::Worker;
