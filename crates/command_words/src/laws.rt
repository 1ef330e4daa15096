// What follows of words alone.
ghost use Rattle.std.specs.Prelude.{◌≡◌, ◌≢◌, ◌<◌, ◌≤◌, ◌^◌, ◌↔◌, ◌∷◌, [], List, ℕ, Some, None, true, false, codes, slice_get};
ghost use Rattle.call_fs.specs.declared.past.DeliveryWordsData.{DeliveryWordsData};
ghost use Rattle.mail_bytes.specs.Decimal.{digits};
ghost use Rattle.command_words.specs.declared.command.Command.{Command as Told};
ghost use Rattle.command_words.specs.declared.command.MakeWords.{MakeWords};
ghost use Rattle.command_words.specs.declared.command.Command.TheVariants.{Play, Make, Queue, Qmqpd, Send, Audit, Clean, Lspawn, Rspawn, Local, Work};
ghost use Rattle.command_words.specs.Delivery.{HasBytes, delivery_words};
ghost use Rattle.command_words.specs.Lines.{play_line, takes_words};
ghost use Rattle.command_words.specs.Reads.{IsNoCommand, IsNoOption, Reads};

/// Words are at most one command; they are none exactly if no command is theirs. They are `play` exactly if the
/// first one is, and `clap` takes the others as no more than that name.
pub fn words_are_one_command()
    ensures one { (words : List (List ℕ)) (a b : Told) → Reads words a → Reads words b → a ≡ b }
    ensures none { (words : List (List ℕ)) → IsNoCommand words ↔ ((command : Told) → ¬ (Reads words command)) }
    ensures play { (words : List (List ℕ)) → Reads words Play
        ↔ (slice_get words 0 ≡ Some (codes "play")) × (takes_words play_line words ≡ true) }
{}

/// Words that are written out, and the command that they are.
pub fn words_by_row()
    ensures play { Reads (codes "play" ∷ []) Play }
    ensures queue { Reads (codes "queue" ∷ codes "-" ∷ codes "DIR" ∷ [])
        (Queue (record { env = None; dir = codes "DIR"; uid = 0; bounce = false })) }
    ensures file { Reads (codes "queue" ∷ codes "ENV" ∷ codes "DIR" ∷ [])
        (Queue (record { env = Some (codes "ENV"); dir = codes "DIR"; uid = 0; bounce = false })) }
    ensures options { Reads (codes "queue" ∷ codes "--bounce" ∷ codes "-" ∷ codes "--uid" ∷ codes "7" ∷ codes "DIR" ∷ [])
        (Queue (record { env = None; dir = codes "DIR"; uid = 7; bounce = true })) }
    ensures qmqpd { Reads (codes "qmqpd" ∷ codes "DIR" ∷ []) (Qmqpd (record { dir = codes "DIR"; uid = 0 })) }
    ensures qmqpd_user { Reads (codes "qmqpd" ∷ codes "DIR" ∷ codes "--uid" ∷ codes "1000" ∷ [])
        (Qmqpd (record { dir = codes "DIR"; uid = 1000 })) }
    ensures qmqpd_no_directory { IsNoCommand (codes "qmqpd" ∷ []) }
    ensures qmqpd_zero { IsNoCommand (codes "qmqpd" ∷ codes "DIR" ∷ codes "--uid" ∷ codes "01" ∷ []) }
    ensures send { Reads (codes "send" ∷ codes "DIR" ∷ codes "PROGRAM" ∷ codes "--turns" ∷ codes "5" ∷ [])
        (Send (record { dir = codes "DIR"; program = codes "PROGRAM"; turns = 5 })) }
    ensures turns_first { Reads (codes "send" ∷ codes "--turns=1000000" ∷ codes "--" ∷ codes "DIR" ∷ codes "-p" ∷ [])
        (Send (record { dir = codes "DIR"; program = codes "-p"; turns = 1000000 })) }
    ensures no_turns { IsNoCommand (codes "send" ∷ codes "DIR" ∷ codes "PROGRAM" ∷ []) }
    ensures zero_turns { IsNoCommand (codes "send" ∷ codes "DIR" ∷ codes "PROGRAM" ∷ codes "--turns" ∷ codes "0" ∷ []) }
    ensures too_many_turns { IsNoCommand (codes "send" ∷ codes "DIR" ∷ codes "PROGRAM" ∷ codes "--turns" ∷ codes "1000001" ∷ []) }
    ensures send_no_program { IsNoCommand (codes "send" ∷ codes "DIR" ∷ codes "--turns" ∷ codes "5" ∷ []) }
    ensures make { Reads (codes "make" ∷ codes "7" ∷ codes "5" ∷ []) (Make (record { seed = 7; count = 5 })) }
    ensures make_no_count { IsNoCommand (codes "make" ∷ codes "7" ∷ []) }
    ensures make_extra { IsNoCommand (codes "make" ∷ codes "7" ∷ codes "5" ∷ codes "more" ∷ []) }
    ensures seed_zero { IsNoCommand (codes "make" ∷ codes "01" ∷ codes "5" ∷ []) }
    ensures seed_too_great { IsNoCommand (codes "make" ∷ codes "65537" ∷ codes "5" ∷ []) }
    ensures too_many_mails { IsNoCommand (codes "make" ∷ codes "7" ∷ codes "100001" ∷ []) }
    ensures audit { Reads (codes "audit" ∷ codes "DIR" ∷ []) (Audit (codes "DIR")) }
    ensures audit_no_directory { IsNoCommand (codes "audit" ∷ []) }
    ensures audit_extra { IsNoCommand (codes "audit" ∷ codes "DIR" ∷ codes "more" ∷ []) }
    ensures clean { Reads (codes "clean" ∷ codes "DIR" ∷ []) (Clean (codes "DIR")) }
    ensures clean_no_directory { IsNoCommand (codes "clean" ∷ []) }
    ensures lspawn { Reads (codes "lspawn" ∷ codes "DIR" ∷ []) (Lspawn (codes "DIR")) }
    ensures rspawn { Reads (codes "rspawn" ∷ codes "DIR" ∷ codes "PROGRAM" ∷ [])
        (Rspawn (record { dir = codes "DIR"; program = codes "PROGRAM" })) }
    ensures no_program { IsNoCommand (codes "rspawn" ∷ codes "DIR" ∷ []) }
    ensures empty_program { IsNoCommand (codes "rspawn" ∷ codes "DIR" ∷ [] ∷ []) }
    ensures local { Reads (codes "local" ∷ codes "DIR" ∷ codes "=j" ∷ codes "=home/j" ∷ codes "=j" ∷ codes "=" ∷ codes "="
        ∷ codes "=x" ∷ codes "=a%40x" ∷ codes "=./Maildir/" ∷ codes "--uid" ∷ codes "1000" ∷ [])
        (Local (record {
          dir = codes "DIR";
          words = record {
            user = codes "j";
            home = codes "home/j";
            local = codes "j";
            dash = [];
            ext = [];
            domain = codes "x";
            sender = codes "a@x";
            line = codes "./Maildir/";
          };
          uid = 1000;
        })) }
    ensures unmarked { IsNoCommand (codes "local" ∷ codes "DIR" ∷ codes "j" ∷ codes "=home/j" ∷ codes "=j" ∷ codes "=" ∷ codes "="
        ∷ codes "=x" ∷ codes "=a@x" ∷ codes "=./Maildir/" ∷ []) }
    ensures bad_escape { IsNoCommand (codes "local" ∷ codes "DIR" ∷ codes "=j" ∷ codes "=home/j" ∷ codes "=j" ∷ codes "=" ∷ codes "="
        ∷ codes "=x" ∷ codes "=a%4x" ∷ codes "=./Maildir/" ∷ []) }
    ensures work { Reads (codes "work" ∷ []) (Work 2) }
    ensures threads { Reads (codes "work" ∷ codes "--threads" ∷ codes "16" ∷ []) (Work 16) }
    ensures no_threads { IsNoCommand (codes "work" ∷ codes "--threads" ∷ codes "0" ∷ []) }
    ensures too_many_threads { IsNoCommand (codes "work" ∷ codes "--threads" ∷ codes "17" ∷ []) }
    ensures thread_zero { IsNoCommand (codes "work" ∷ codes "--threads" ∷ codes "02" ∷ []) }
    ensures work_extra { IsNoCommand (codes "work" ∷ codes "more" ∷ []) }
    ensures help { IsNoCommand (codes "queue" ∷ codes "-" ∷ codes "DIR" ∷ codes "--help" ∷ []) }
    ensures version { IsNoCommand (codes "play" ∷ codes "--version" ∷ []) }
    ensures no_directory { IsNoCommand (codes "queue" ∷ codes "-" ∷ []) }
    ensures extra { IsNoCommand (codes "queue" ∷ codes "-" ∷ codes "DIR" ∷ codes "more" ∷ []) }
    ensures zero { IsNoCommand (codes "queue" ∷ codes "-" ∷ codes "DIR" ∷ codes "--uid" ∷ codes "01" ∷ []) }
    ensures twice { IsNoCommand (codes "queue" ∷ codes "-" ∷ codes "DIR" ∷ codes "--bounce" ∷ codes "--bounce" ∷ []) }
    ensures unknown { IsNoCommand (codes "nosuch" ∷ []) }
    ensures nothing { IsNoCommand [] }
{}

/// Words of `queue` that are written out except for ENV, DIR and the user, if the first two don't begin with `-`: what a
/// caller wrote is what is read.
pub fn words_of_queue()
    ensures file { (env dir : List ℕ) → IsNoOption env → IsNoOption dir → Reads (codes "queue" ∷ env ∷ dir ∷ [])
        (Queue (record { env = Some env; dir = dir; uid = 0; bounce = false })) }
    ensures bounce { (dir : List ℕ) → IsNoOption dir
        → Reads (codes "queue" ∷ codes "-" ∷ dir ∷ codes "--bounce" ∷ [])
        (Queue (record { env = None; dir = dir; uid = 0; bounce = true })) }
    ensures forward { (dir : List ℕ) (n : ℕ) → IsNoOption dir → n < 2 ^ 32
        → Reads (codes "queue" ∷ codes "-" ∷ dir ∷ codes "--uid" ∷ digits n ∷ [])
        (Queue (record { env = None; dir = dir; uid = n; bounce = false })) }
{}

/// Words of `local` that are written out except for DIR, which doesn't begin with `-`, and what is told of the delivery:
/// what a spawner wrote is what is read.
pub fn words_of_local()
    ensures { (dir : List ℕ) (d : DeliveryWordsData) (n : ℕ) → IsNoOption dir → HasBytes d → n < 2 ^ 32
        → Reads (codes "local" ∷ dir ∷ delivery_words d n) (Local (record { dir = dir; words = d; uid = n })) }
{}

/// Words of the members of a generation that are written out except for DIR, PROGRAM and N: what a caller wrote is what is
/// read. The conditions: DIR and PROGRAM don't begin with `-`, PROGRAM isn't empty, and N is from 1 to 1,000,000.
pub fn words_of_members()
    ensures send { (dir program : List ℕ) (n : ℕ) → IsNoOption dir → IsNoOption program → program ≢ [] → 0 < n → n ≤ 1000000
        → Reads (codes "send" ∷ dir ∷ program ∷ codes "--turns" ∷ digits n ∷ [])
        (Send (record { dir = dir; program = program; turns = n })) }
    ensures clean { (dir : List ℕ) → IsNoOption dir → Reads (codes "clean" ∷ dir ∷ []) (Clean dir) }
    ensures lspawn { (dir : List ℕ) → IsNoOption dir → Reads (codes "lspawn" ∷ dir ∷ []) (Lspawn dir) }
    ensures rspawn { (dir program : List ℕ) → IsNoOption dir → IsNoOption program → program ≢ []
        → Reads (codes "rspawn" ∷ dir ∷ program ∷ []) (Rspawn (record { dir = dir; program = program })) }
{}

/// Words of `make` that are written out except for its numbers: what a caller wrote is what is read. The seed that is read is at
/// most 65,536, and the count at most 100,000.
pub fn words_of_make()
    ensures written { (seed count : ℕ) → seed ≤ 65536 → count ≤ 100000
        → Reads (codes "make" ∷ digits seed ∷ digits count ∷ []) (Make (record { seed = seed; count = count })) }
    ensures range { (words : List (List ℕ)) (told : MakeWords) → Reads words (Make told) → (told.seed ≤ 65536) × (told.count ≤ 100000) }
{}

/// What is read of words of `work` is from 1 to 16 threads.
pub fn words_of_work()
    ensures { (words : List (List ℕ)) (threads : ℕ) → Reads words (Work threads) → (1 ≤ threads) × (threads ≤ 16) }
{}
