// Rule questions by colours.
pub mod ask;
pub mod build;
