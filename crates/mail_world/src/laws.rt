//! Laws of histories. Each is the contract of a function that does nothing.
ghost use Rattle.mail_world.specs.Books.{AcceptedAreBooked, BooksAreTheModels};
ghost use Rattle.mail_world.specs.Anew.{HistoriesBeginAnew};
ghost use Rattle.mail_world.specs.Lone.{LonesHaveTheirInput, WhatWasGivenStays};
ghost use Rattle.mail_world.specs.Waiting.{MailsWait};
ghost use Rattle.mail_world.specs.Untouched.{EventsLeave};

/// At each prefix of a legal history in which no generation was started, each accepted message waits in todo.
pub fn mails_wait()
    ensures { MailsWait }
{}

/// The books of a world say of each mail what each legal history of its events says.
pub fn books_are_the_models()
    ensures { BooksAreTheModels }
{}

/// A mail is accepted in the books exactly if the headline's books have its accepted injection, if no generation was started.
pub fn accepted_are_booked()
    ensures { AcceptedAreBooked }
{}

/// Each event of a legal history in which no generation was started leaves what was accepted. Each except a machine stop also
/// leaves what isn't the queue's, what other actors hold open, and all that concerns a preprocessed number; of these nothing is
/// said after a machine stop, which closes each descriptor.
pub fn events_leave()
    ensures { EventsLeave }
{}

/// In a history the input of a child may be another one, if since its start neither the child nor its parent did anything: each event
/// might happen when it did all the same.
pub fn histories_begin_anew()
    ensures { HistoriesBeginAnew }
{}

/// The input of an actor that starts alone with all of it stays whole until the machine stops: what it took, and then what lies in its pipe,
/// which is shut. If only what a lone program needs is due to it, its own events reach no other pipe.
pub fn lones_have_their_input()
    ensures { LonesHaveTheirInput }
{}

/// What an actor gave that started alone stays, by its own past: its end, a stop and a machine stop take nothing back.
pub fn what_was_given_stays()
    ensures { WhatWasGivenStays }
{}
