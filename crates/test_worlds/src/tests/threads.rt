// Actors as threads: mails that run to their ends beside a generation, threads that run at once, and members that step while mails are
// held.
mod beginning;
mod meeting;
mod noting_disk;
mod running;
mod stepping;
