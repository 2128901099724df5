//! Tests of certificates as JSON and of the numbers in them; and of `run` on certificates on a table: their texts as it
//! writes them, that it accepts them, and those that it rejects or refuses, with levels of observations and without.

mod forged;
mod json_numbers;
mod json_reading;
mod json_texts;
mod levels;
mod refused;
mod written;
