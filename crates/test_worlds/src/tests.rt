// Nothing branches much in a function that holds a world. What can't be done shows in the answer.
mod deeds;
mod local_rows;
mod rows;
mod running;
mod seen;
mod threads;
