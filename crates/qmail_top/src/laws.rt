// What follows of words, and of turns and histories of `work`, alone.
ghost use Rattle.std.specs.Prelude.{◌≡◌, ◌≢◌, ◌<◌, ◌^◌, ◌∷◌, List, [], ℕ, None, Some, Result, true, false, drop, map};
ghost use Rattle.std.specs.List.{list_all, list_any};
ghost use Rattle.call_fs.specs.Disk.{Disk};
ghost use Rattle.call_fs.specs.Plan.{Plan};
ghost use Rattle.call_fs.specs.declared.past.ChildData.TheVariants.{Bounce, Forward, Local};
ghost use Rattle.call_fs.specs.declared.past.DeliveryWordsData.{DeliveryWordsData};
ghost use Rattle.crash_fs.specs.Crash.{Crash, crash_disk, crash_plan};
ghost use Rattle.yard_lock.specs.declared.turn.Turn.{Turn};
ghost use Rattle.yard_lock.specs.Turns.{Replay};
ghost use Rattle.world_events.specs.declared.answers.WorldError.{WorldError as Refused};
ghost use Rattle.world_events.specs.declared.answers.Did.{Did};
ghost use Rattle.mail_world.specs.Moves.{moves};
ghost use Rattle.mail_world.specs.World.{Seen};
ghost use Rattle.script_words.specs.declared.entry.Entry.{Entry};
ghost use Rattle.script_lines.specs.declared.line.Line.{Line};
ghost use Rattle.scenario.specs.Deeds.{Deed, history_of};
ghost use Rattle.scenario.specs.Playing.{IsPlaying};
ghost use Rattle.scenario.specs.Working.{HasWorked, IsWorked, deeds_of, is_quiet, lacked_memory};
ghost use Rattle.command_words.specs.Delivery.{HasBytes};
ghost use Rattle.command_words.specs.Reads.{IsNoOption, Reads, command_of};
ghost use Rattle.command_words.specs.declared.command.Command.TheVariants.{Clean, Lspawn, Queue, Rspawn, Local as Delivers};
ghost use Rattle.program_runner.specs.ChildWords.{dir_word, words_of};
ghost use Rattle.send_command.specs.Links.{link_words};

/// The words by which a program of the queue in `dir` starts this same program, after the first of them, which stands for it,
/// are the command that it means: a local delivery with its words and the user's number, the injector of a forward or of a
/// bounce, and a sender's cleaner and spawners. The conditions: the words of the delivery are bytes, and the number is a u32; the
/// program for remote recipients isn't empty and doesn't begin with `-`.
pub fn children_are_commands()
    ensures delivery { (dir : List ℕ) (slot : ℕ) (d : DeliveryWordsData) (n : ℕ) → HasBytes d → n < 2 ^ 32
        → Reads (drop 1 (words_of (dir_word dir) [] (Local slot d n))) (Delivers (record { dir = dir_word dir; words = d; uid = n })) }
    ensures forward { (dir : List ℕ) (n room : ℕ) → n < 2 ^ 32
        → Reads (drop 1 (words_of (dir_word dir) [] (Forward n room)))
        (Queue (record { env = None; dir = dir_word dir; uid = n; bounce = false })) }
    ensures bounce { (dir : List ℕ) (room : ℕ)
        → Reads (drop 1 (words_of (dir_word dir) [] (Bounce room)))
        (Queue (record { env = None; dir = dir_word dir; uid = 0; bounce = true })) }
    ensures links { (dir program : List ℕ) → IsNoOption program → program ≢ []
        → map (λ words. command_of (drop 1 words)) (link_words (dir_word dir) program)
        ≡ Some (Clean (dir_word dir)) ∷ Some (Lspawn (dir_word dir)) ∷ Some (Rspawn (record { dir = dir_word dir; program = program })) ∷ [] }
{}

/// Turns of a world in which a script is played are steps of the play, in their order, if no call found no memory. A turn that was refused
/// is none.
pub fn turns_are_steps()
    ensures { (d : Disk) (plan : Plan) (h : List Deed) (old new : Seen Crash) (turns : List (Turn (List ℕ) (Result Did Refused)))
        → IsPlaying d old plan h → Replay (moves crash_plan (λ disk. Some (crash_disk disk))) old turns new
        → list_any lacked_memory new.events ≡ false → HasWorked d new plan h }
{}

/// In what `work` does no moment, stop or machine stop comes, and nothing fails.
pub fn work_is_quiet()
    ensures { (opening : List Entry) (lines : List Line) (text : List ℕ) (p : IsWorked opening lines text)
        → list_all is_quiet (history_of (deeds_of opening lines text p)) ≡ true }
{}
