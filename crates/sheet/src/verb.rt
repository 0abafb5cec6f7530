ghost use Rattle.std.specs.Prelude.{◌≡◌, ℕ, Option};

/// What a command's letter stands for; with a number it makes a command of the service.
pub trait Verb: Copy {
    type Command: Copy;

    // the verb of a letter, if the program knows it
    ghost known: { ℕ → Option Self };

    // the command that the verb makes of a number
    ghost says: { Self → ℕ → Self.Command };

    /// The verb of a letter; none where the program does not know it.
    fn of_letter(letter: char) -> Option<Self>
        ensures { result ≡ known letter };

    /// The command that the verb makes of a number.
    fn command(self, value: u32) -> Self::Command
        ensures { result ≡ says self value };
}
