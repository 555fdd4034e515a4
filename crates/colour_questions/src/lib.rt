// Questions by colours: from drop to drop down a path (S-14).
//     path_drops     the drops of a path, one after the other
//     target_states  one side of a part: target states in rising order
//     parts          one part of a rule question
//     branch         the branch question by colours
//     rule           the rule question by colours
#![tactic(auto)]

pub mod branch;
pub mod parts;
pub mod path_drops;
pub mod rule;
pub mod target_states;
