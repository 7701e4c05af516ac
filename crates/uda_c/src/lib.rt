//! The controller as a static library for C: `uda50.h` declares the exports.
#![tactic(auto)]

mod block_range;
mod blocks;
mod bus_run;
mod call_status;
mod choices;
mod controller;
mod exports;
mod fits;
mod handle;
mod inspection;
mod last;
mod lent_image;
mod map;
mod saving;
mod slot;
mod snapshot;
mod text;
mod turn_use;
mod unit_image;
mod unit_images;
