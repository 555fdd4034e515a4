// The fewest changes of a plan's parts: the least number, and the list of changes where they are at most 64.
//     entries   the list of changes
//     shown     up, the root, down, and the list
pub mod entries;
pub mod shown;
