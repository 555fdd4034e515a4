// From a planner's file to our plan: the checks 19 to 21, the places, and the plan.
mod check;
pub mod convert;
pub mod lay;
mod places;
