// Nothing branches in a function that holds what a run is played over. What can't be made shows in the answer.
mod children;
mod cleaners;
mod commands;
mod errands;
mod one_word;
mod pipes;
mod sent;
