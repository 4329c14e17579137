//! Judges a constraint along the walk of a plan.
mod choices;
mod elements;
mod entries;
mod judging;
mod leaves;

pub(crate) use judging::check_along;
