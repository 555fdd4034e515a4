// The calls of rule questions by colours: the build of the tables of colours, and the question.
//     whatif_colour_build   the tables of colours for a rule table
//     whatif_colour_ask     the rule question by colours
pub mod ask;
pub mod build;
