//! A picture as the text of an SVG.

mod arrows;
mod boxes;
mod drawing;
mod lanes;
mod places;
mod replies;
mod tags;

pub use drawing::draw;
