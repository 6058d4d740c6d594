//! What the commands of the program share: the contents of files ([`contents`]), from texts to blocks and their
//! firmware ([`firmware`], [`twos`]), images and handlers ([`images`], [`handlers`]), certificates ([`certs`]),
//! lines ([`lines`]), the forms of words ([`words`]), and a command's output ([`output::Output`]).
//!
//! Each function that reads a text returns what the text gives, or the status of its first fault. For each there is
//! a law that a text that gives a result has no fault, and that this result is unique.
#![tactic(auto)]

pub mod certs;
pub mod contents;
pub mod firmware;
pub mod handlers;
pub mod images;
pub mod laws;
pub mod lines;
pub mod output;
pub mod twos;
pub mod words;
