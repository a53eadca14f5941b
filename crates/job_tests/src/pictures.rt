// Small pictures of every operation.
mod blends;
mod copies;
mod expansions;
mod fills;
mod jobs;
mod keys;
mod patterns;
