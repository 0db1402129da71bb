// What a person types on one line, turned into the bytes of a command. GRAMMAR.md, beside this folder, says what can be typed.
#![tactic(auto)]

mod code;
mod commands;
mod constants;
pub mod fault;
mod operands;
mod places;
mod reader;
pub mod reading;
mod scan;
mod terms;
mod words;
