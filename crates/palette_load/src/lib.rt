#![tactic(auto)]
// Loading the palette: 128 bytes from the host, two for each entry.
mod feed;
mod load;

pub use load::PaletteLoad;
