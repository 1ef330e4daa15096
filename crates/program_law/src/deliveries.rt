//! Local deliveries over the queue and its disk: what one rests on (`specs/Delivery/Rests.antt`), what its events keep of
//! that and of the queue, and what others leave it (`specs/Delivery/Laws.antt`, by `specs/Delivery/Leaves.antt`). And that
//! the names of its drops are apart from all that other programs name (`specs/Delivery/Names.antt`). The laws are the
//! contracts of functions that do nothing.
//!
//! # What is claimed
//!
//! - A name of a drop, in `tmp` or `new`, is no name of the queue, no control file's, and none of those in `pid`
//!   that a cleaner takes away: it has `/tmp/` or `/new/` in it. That is so whatever the home, the path of the
//!   maildir line and the name of the host are. The law: `names_are_apart`, by `IsDropName`.
//! - A delivery rests on what the drop at work has written so far, on its name in `tmp` being that of a file of its own,
//!   and on the descriptors that its past holds open. It has that when it begins and after each of its events that is due: a
//!   file call with any answer, and a take, a give, a start or a command. A file call of it is a step of a program
//!   that is none of the queue's. It changes no name but those of drops, no file but those of its own drops, and
//!   leaves the drops of other deliveries: the law `deliveries_keep`, by `DeliveryRests` (`specs/Delivery/Rests.antt`) and
//!   `DeliveryLeads`.
//! - Drops stay by each step of a program of the queue's. It leaves what isn't the queue's and what none of its
//!   programs made, or takes a name of one part in `pid` away, or changes no name and no file. A step of another
//!   actor that leaves the drops in `tmp`, and what others hold open, leaves a delivery what it rests on. So does a
//!   reader who moves or unlinks names in `new`, also between a delivery's link and its unlink: the laws `drops_stay`
//!   (by `LeavesDrops` and `LeavesTmp`), `deliveries_are_left_alone`.
//! - So a link is due to a delivery only of a file that holds `Return-Path`, `Delivered-To` and the message that it
//!   took, complete and on the disk, whatever others did to the disk meanwhile that leaves its drops. The law:
//!   `linked_is_whole`.
ghost use Rattle.program_law.specs.Delivery.Laws.{DeliveriesAreLeftAlone, DeliveriesKeep, DropsStay, LinkedIsWhole};
ghost use Rattle.program_law.specs.Delivery.Names.{NamesAreApart};

/// A name of a drop is no name of the queue, no control file's, and none of those in `pid` that a cleaner takes away, whatever
/// the home, the path of the maildir line and the name of the host are.
pub fn names_are_apart()
    ensures { NamesAreApart }
{}

/// Drops stay by events of the queue's programs: by those that leave what isn't the queue's and what none of its programs made, by
/// a cleaner's, which takes a name in `pid` away besides, and by those that change no name and no file. Drops in `tmp` stay by those
/// of a reader too, who changes no file and no name in a `tmp`.
pub fn drops_stay()
    ensures { DropsStay }
{}

/// A delivery that begins has what it rests on, and has it after each of its events that is due. A file call of it is none of the
/// queue's, and touches nothing but its own drops.
pub fn deliveries_keep()
    ensures { DeliveriesKeep }
{}

/// What another actor does that leaves the drops of others in `tmp`, and what others hold open, leaves a delivery all that it rests
/// on.
pub fn deliveries_are_left_alone()
    ensures { DeliveriesAreLeftAlone }
{}

/// A link is due to a delivery only of a file that holds the lines of a maildir and its message, complete and on the disk, also
/// if others changed the disk between its calls.
pub fn linked_is_whole()
    ensures { LinkedIsWhole }
{}
