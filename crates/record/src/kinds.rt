// The six kinds of records, by their numbers in an image.
ghost use Rattle.std.specs.Prelude.{◌≡◌, MatchResult};
ghost use Rattle.record.specs.Kinds.{IsNoKind, number_of};

#[derive(Clone, Copy, Debug, PartialEq, Eq)]
pub enum Kind {
    Format = 1,
    Put = 2,
    Remove = 3,
    Foster = 4,
    Adopt = 5,
    Grow = 6,
}

/// A number that no kind has.
#[derive(Clone, Copy, Debug, PartialEq, Eq)]
pub struct UnknownKind(pub u8);

impl From<Kind> for u8 {
    ghost from_gives = { λ kind n. n ≡ number_of kind };

    fn from(kind: Kind) -> u8 {
        kind as u8
    }
}

impl TryFrom<u8> for Kind {
    type Error = UnknownKind;

    ghost try_from_gives = { λ n r. MatchResult r (λ kind. number_of kind ≡ n) (λ e. (e.0 ≡ n) × IsNoKind n) };

    fn try_from(n: u8) -> Result<Kind, UnknownKind> {
        match n {
            1 => Ok(Kind::Format),
            2 => Ok(Kind::Put),
            3 => Ok(Kind::Remove),
            4 => Ok(Kind::Foster),
            5 => Ok(Kind::Adopt),
            6 => Ok(Kind::Grow),
            _ => Err(UnknownKind(n)),
        }
    }
}
