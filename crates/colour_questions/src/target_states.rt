// One side of a part by colours, for any inputs: target states in rising order, until one is found.
pub mod trials;
