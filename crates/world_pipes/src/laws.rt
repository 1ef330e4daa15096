//! Laws on the commands of users.
ghost use Rattle.std.specs.Prelude.{◌≡◌, ◌≢◌, ◌<◌, ◌++◌, ℕ, List, codes};
ghost use Rattle.mail_bytes.specs.Decimal.{digits};
ghost use Rattle.world_pipes.specs.Commands.{command_exits};

/// `exit N` exits with N for each N up to 255, and every other command with 127.
pub fn commands_exit_so()
    ensures exits { (n : ℕ) → n < 256 → command_exits (codes "exit " ++ digits n) ≡ n }
    ensures other { (command : List ℕ) → ((n : ℕ) → n < 256 → command ≢ codes "exit " ++ digits n)
        → command_exits command ≡ 127 }
{}
