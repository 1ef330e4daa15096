//! The injector with the input that it is fed as it goes: a mail's from its start, a child's once its parent has given it.
//!
//! While its input is awaited it finds nothing ready, and waits. If its parent ends without giving it any, it has ended before its
//! first byte.
//!
//! # What is claimed
//!
//! - An injector that is given its input some time after its start, or never. Until then it waits, and stands for
//!   whatever input it will be given; then for the input that it was given; and if nobody gives it any, for one
//!   that has ended before its first byte. Which message and envelope two netstrings are, exact:
//!   `FedInjector::{new, given, awaits, give, cut}` and its `Machine` (by `FedStands`); `texts_of`: `texts`, `none`;
//!   `texts_to_give` (by `GivesTexts`).
#![tactic(auto)]

mod feeding;
mod machine;
mod texts;

pub use machine::{FedInjector, Input};
pub use texts::{texts_of, texts_to_give};
