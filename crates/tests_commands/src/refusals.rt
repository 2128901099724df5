//! Tests of `run` on words, those that are taken, as they are written or in another form, and those that the usage
//! answers; on files that are refused, the first fault of several told with its place: tables, second files, budgets
//! and choices; and on both sides of the limits of files.

mod choice_words;
mod choices;
mod files;
mod refused_words;
mod tables;
mod taken_words;
mod words_over_files;
