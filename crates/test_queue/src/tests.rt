// In audits and troubles nothing branches in a function that holds a disk: each branch there makes its proof dearer. What
// can't be made shows in the answer.
mod audits;
mod disks;
mod files;
mod limits;
mod names;
mod routes;
mod rows;
mod states;
mod todo_disks;
mod todo_passes;
mod troubles;
