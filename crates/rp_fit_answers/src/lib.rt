//! What the commands over the front answer, on goodness of fit and on random choices within a limit of steps: what words
//! ask, what files hold, and the texts.
#![tactic(auto)]

mod answering;
mod asked;
mod asking;
mod checking;
mod choices;
mod faults;
mod indices;
mod loading;
mod random_answer;
mod random_words;

pub use answering::{answer_check, answer_indices};
pub use asked::{Asked, asked_by};
pub use asking::RandomAsked;
pub use random_answer::answer_random;
