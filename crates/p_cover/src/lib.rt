//! Covers of answers. The cover of an answer has a new central generator of order p, a tail, for each relation and image
//! that defines no generator, or for some of these, numbered in the want order. `Cover` keeps the answer beside the
//! presentation with tails; `Images` are the images of the given generators in it. `laws` states what
//! holds of tails and sources, and `rowed_laws` what holds in every answer with rows.
#![tactic(auto)]

pub mod cover;
mod given;
mod image_tails;
pub mod images;
pub mod laws;
pub mod rowed_laws;
pub mod want;

pub use cover::{Cover, cover_of, full_cover};
pub use images::Images;
pub use want::want_order;
