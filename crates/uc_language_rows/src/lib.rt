//! Worked rows of the front end's parts, of the rules on order and sizes, of the printer and of the operators on values, which only tests run.
#![tactic(auto)]

#[cfg(test)]
mod io;
#[cfg(test)]
mod lexer;
#[cfg(test)]
mod names;
#[cfg(test)]
mod operators;
#[cfg(test)]
mod order;
#[cfg(test)]
mod parser;
#[cfg(test)]
mod printer;
#[cfg(test)]
mod texts;
#[cfg(test)]
mod words;
