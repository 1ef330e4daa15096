// What is printed of bytes that aren't a script.
ghost use Rattle.std.specs.Prelude.{◌≡◌, ◌++◌, List, ℕ, IsOk, IfOk};
ghost use Rattle.mail_bytes.specs.Told.{Rose, Meets};
ghost use Rattle.scenario.specs.Text.{script_line, IsTakenText};

use mail_bytes::{NameBuf, NoRoom, dec};
use outside::Sink;

/// Gives the sink `script K` and a newline. Takes no memory; if the sink fails it has counted it.
pub fn refuse<O: Sink>(out: &mut O, number: u64)
    ensures { Meets (O.taken out.old) (O.taken out.new) (λ before after. (text : List ℕ)
        × IsTakenText (script_line number) text (Rose (O.faults out.old) (O.faults out.new)) × (after ≡ before ++ text)) }
{
    match script_line(number) {
        Ok(line) => {
            let _ = out.give(line.as_slice());
        }
        Err(NoRoom) => {}
    }
}

/// The line `script K`.
fn script_line(number: u64) -> Result<NameBuf, NoRoom>
    ensures room { IsOk result }
    ensures text { IfOk result (λ line. line ≡ script_line number) }
{
    let mut into = [0; 20];
    let length = dec(number, &mut into);
    let mut line = NameBuf::new();
    line.extend(b"script ")?;
    line.extend(&into[..length])?;
    line.push(b'\n')?;
    Ok(line)
}
