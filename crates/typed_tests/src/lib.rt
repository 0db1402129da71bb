// Tests of the reader of lines and of what is printed: each kind of line by its bytes, each refusal with its column, formulas printed and read again.
#![tactic(auto)]

#[cfg(test)]
mod lines;
