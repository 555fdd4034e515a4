// From our plan to a planner's file: the checks 19 and 21, and the file.
mod check;
pub mod convert;
mod read;
