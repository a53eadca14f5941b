#![tactic(auto)]

// Scripts of the bench, their answers worked by hand.
#[cfg(test)]
mod blends;
#[cfg(test)]
mod expansions;
#[cfg(test)]
mod fills;
#[cfg(test)]
mod keys;
#[cfg(test)]
mod malformed;
#[cfg(test)]
mod palettes;
#[cfg(test)]
mod rasters;
#[cfg(test)]
mod refusals;
#[cfg(test)]
mod scripts;
#[cfg(test)]
mod starts;
#[cfg(test)]
mod stops;
