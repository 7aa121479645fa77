// Worked out by hand from the rules: the text of an obligation, from the statements on, and a trigger
// of two patterns.
mod graphs;
mod passes;
mod program;
mod sequents;
mod sorted;
mod terms;
mod triggers;
