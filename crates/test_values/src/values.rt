//! The calls on blocks and certificates: numbers, answers, bytes, grades, layouts and errors.
mod answers;
pub(crate) mod blocks;
mod bounds;
mod bytes;
mod cells;
mod certificates;
mod checks;
mod controllers;
mod decimals;
mod fractions;
mod grades;
mod halving;
mod layouts;
mod leaves;
mod texts;
mod tight;
