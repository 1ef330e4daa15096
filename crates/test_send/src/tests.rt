mod bounce_texts;
mod known_again;
mod log_texts;
mod note_texts;
mod notes;
mod returns;
mod slot_steps;
mod steps;
