//! The plan of an unwinder: the unwind records of a function on x64, from its own to the root of its chain.
//!
//! A record with `UNW_FLAG_CHAININFO` names another function, whose record goes on with it; that one may be chained to
//! a third ([layout](https://learn.microsoft.com/cpp/build/exception-handling-x64)). Unwinding a frame needs all of
//! them. A hostile image may chain records in a loop: a plan is proved to be `FunctionCycle` exactly if the chain never
//! ends, and otherwise all records or the first error.
//!
//! A caller passes an RVA to `UnwindPlan::of`, and the records that it returns to `step` of pe_frame. One that does not
//! allocate takes a `ShortPlan`, or `read_plan` with an array of its own.
#![tactic(auto)]

mod chain;
pub mod laws;
mod plan;
mod plan_room;
mod short_plan;

pub use plan::UnwindPlan;
pub use plan_room::read_plan;
pub use short_plan::ShortPlan;
