//! What is in flight: replies that cross, requests outside of a range, devices, refused memory, and resets.
mod crossed;
mod cut;
mod outside;
mod refused;
mod scene;
