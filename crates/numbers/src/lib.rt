// The numbers that documents 01 and 02 give to answers: 0 for what is done, and its own for each refusal.
#![tactic(auto)]

ghost use Rattle.std.specs.Prelude.{◌≡◌, ℕ};
ghost use Rattle.numbers.specs.Numbers.{numbered};

/// An answer that has a number in document 01, "Numbers a call may give back".
pub trait Numbered {
    ghost number: { Self → ℕ };

    /// The answer's number.
    fn number(&self) -> u8
        ensures { result ≡ number self.now };
}

/// What is done has the number 0, and a refusal its own.
impl<T, E: Numbered> Numbered for Result<T, E> {
    ghost number = { numbered E.number };

    fn number(&self) -> u8 {
        match self {
            Ok(_) => 0,
            Err(why) => why.number(),
        }
    }
}
