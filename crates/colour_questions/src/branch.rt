// Branch questions by colours, for any inputs: from drop to drop down the path.
pub mod answers;
pub mod ask;
mod steps;
