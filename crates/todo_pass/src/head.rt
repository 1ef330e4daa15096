// The head of a todo text: `u` UID NUL `p` PID NUL.
ghost use Rattle.std.specs.Prelude.{◌≡◌, ◌≤◌, None, IfOk, drop, length};
ghost use Rattle.todo_pass.specs.Todo.{more_digit, digit_step, number_from, field_from, read_head};

/// What a byte of a number does.
#[derive(Clone, Copy)]
pub enum Digit {
    /// The number is this one so far.
    More(u32),
    /// The number has ended.
    Ended(u32),
    /// No number has it there.
    Bad,
}

/// A number that was read.
#[derive(Clone, Copy)]
pub struct Number {
    /// The number.
    pub value: u32,
    /// The place after its NUL.
    pub next: usize,
}

/// The head of a todo text.
#[derive(Clone, Copy)]
pub struct Head {
    /// The user who injected the message.
    pub uid: u32,
    /// The injector's process number.
    pub pid: u32,
    /// The place after the head.
    pub next: usize,
}

/// Reads the head. An error is the place of the first byte that no todo text has there, or the length of bytes that end
/// too early.
#[tactic(auto, unfolding(crate::specs::Todo::read_head))]
pub fn read_head(bytes: &[u8]) -> Result<Head, usize>
    ensures head { result ≡ read_head bytes.now }
    ensures inside { IfOk result (λ head. head.next ≤ length bytes.now) }
{
    let uid = field_from(bytes, 0, b'u')?;
    let pid = field_from(bytes, uid.next, b'p')?;
    Ok(Head {
        uid: uid.value,
        pid: pid.value,
        next: pid.next,
    })
}

/// Reads a letter and a number from this place on.
fn field_from(bytes: &[u8], from: usize, letter: u8) -> Result<Number, usize>
    requires { from ≤ length bytes.now }
    ensures number { result ≡ field_from letter from (drop from bytes.now) }
    ensures inside { IfOk result (λ number. number.next ≤ length bytes.now) }
{
    if from == bytes.len() || bytes[from] != letter {
        return Err(from);
    }
    number_from(bytes, from + 1)
}

/// Reads a number from this place on.
fn number_from(bytes: &[u8], from: usize) -> Result<Number, usize>
    requires { from ≤ length bytes.now }
    ensures number { result ≡ number_from None from (drop from bytes.now) }
    ensures inside { IfOk result (λ number. number.next ≤ length bytes.now) }
{
    let mut number = None;
    for at in from..bytes.len() {
        match digit_step(number, bytes[at]) {
            Digit::More(value) => number = Some(value),
            Digit::Ended(value) => {
                let next = at + 1;
                return Ok(Number { value, next });
            }
            Digit::Bad => return Err(at),
        }
    }
    Err(bytes.len())
}

/// What a byte does after the number so far.
fn digit_step(number: Option<u32>, byte: u8) -> Digit
    ensures { result ≡ digit_step number byte }
{
    match number {
        None if byte.is_ascii_digit() => Digit::More(u32::from(byte - b'0')),
        None => Digit::Bad,
        Some(number) if byte == 0 => Digit::Ended(number),
        Some(0) => Digit::Bad,
        Some(number) => more_digit(number, byte),
    }
}

/// What a byte but NUL does after a number other than 0.
fn more_digit(number: u32, byte: u8) -> Digit
    ensures { result ≡ more_digit number byte }
{
    if !byte.is_ascii_digit() {
        return Digit::Bad;
    }
    let more = u64::from(number) * 10 + u64::from(byte - b'0');
    if more < 4_294_967_296 {
        Digit::More(more as u32)
    } else {
        Digit::Bad
    }
}
