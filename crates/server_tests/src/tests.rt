// Worked out by hand from what each call does: whole reads and lines, a lock that four threads take, a cache, boards and
// their workers, a session over lines; the program's words, and whole runs: reports, faults, refusals of a read or a
// write, sessions, searches that end in each way, and the same beside workers.
mod beside;
mod boards;
mod caches;
mod lines;
mod many;
mod questions;
mod reads;
mod runs;
mod searches;
mod sessions;
mod shared;
mod together;
mod trimming;
mod turns;
mod words;
mod workers;
