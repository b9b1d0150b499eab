// Folders for the tests, from text, and the pedal example's. Safe and ending on any arguments; its contracts say no more.

#![tactic(auto)]

pub mod build;
