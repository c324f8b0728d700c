// The regions of bodies.

mod bodies;
mod regions;
