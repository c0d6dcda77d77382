//! Case trees as they are planned, and the terms that they are assembled to.

mod assembled;
mod environment;
mod outline;
mod plans;
mod reading;
mod table;
mod terms;
mod wide;
