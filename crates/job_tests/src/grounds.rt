// The grounds on which a draft is declined, each at its edge.
mod limits;
mod numbers;
mod order;
mod settings;
