//! The points of a program, the seams among them, and where each point leads.
#![tactic(auto)]

pub mod build;
mod count;
mod draft;
mod fault;
mod graph;
pub mod laws;
mod lay;
pub mod marks;

pub use fault::PointsFault;
pub use graph::{Graph, Node, Part, Point, Seam};
