// The kinds of words, with their numbers.
ghost use Rattle.std.specs.Prelude.{◌≡◌};
ghost use Rattle.words.specs.Kinds.{kind_number};

#[derive(Clone, Copy, Debug, PartialEq, Eq)]
pub enum Kind {
    Call = 1,
    Number = 2,
    Day = 3,
    Volume = 4,
    Point = 5,
    Figure = 6,
    Below = 7,
    Done = 8,
    Refused = 9,
    Status = 10,
}

impl From<Kind> for u32 {
    ghost from_gives = { λ k n. n ≡ kind_number k };

    fn from(kind: Kind) -> u32 {
        kind as u32
    }
}
