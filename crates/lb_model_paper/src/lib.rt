//! What lies on paper: fonts, words and boxes, the lines of paragraphs, where pages end, the bytes of DVI
//! files, and the texts of aux and log files.
#![tactic(auto)]

pub mod pages;
pub mod paragraph;
pub mod rows;
