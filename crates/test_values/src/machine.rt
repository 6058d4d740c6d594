//! The calls on the machine: its instructions and their parts, sources, images, handlers, and the rows of plans, posts,
//! levels and upsets.
mod handlers;
mod instructions;
mod items;
mod levels;
mod machines;
mod parts;
mod plans;
mod posts;
mod records;
mod sources;
mod upsets;
mod vectors;
