// The states of the colours at each node, and the colour that each lands on: the pass that writes them.
pub mod copies;
pub mod words;
