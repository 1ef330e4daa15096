// What can't be made shows in the answer.
mod counting_gate;
mod fields;
mod locals;
mod made;
mod paced_posts;
mod rows;
mod senders;
mod spawners;
mod told;
mod told_calls;
