// Nothing branches in a function that holds a disk, a source or a sink: each branch there makes its proof dearer. What
// can't be made shows in the answer.
mod calls;
mod clients;
mod host_directories;
mod host_edge;
mod host_files;
mod host_kept;
mod host_scripts;
mod host_steps;
mod host_system;
mod names;
mod recorder;
mod runs;
mod scripts;
mod steps;
mod stopper;
