// Reading calls off lent words.
ghost use Rattle.std.specs.Prelude.{◌≡◌, ◌≤◌, length, nat_le, drop};
ghost use Rattle.words.specs.Reading.{Read, Valued, Taken};

use crate::figures::call_of;
use crate::kind::Kind;
use crate::misread::Misread;
use crate::packed::{is_of, value_of};
use crate::row::Figures;
use crate::table::shape;
use calls::Call;

// The words as they were handed in, and the place that is read next.
#[derive(Clone, Copy, Debug)]
pub struct Reader<'a> {
    pub words: &'a [u32],
    pub place: usize,
}

impl<'a> Reader<'a> {
    pub fn new(words: &'a [u32]) -> Reader<'a>
        ensures over { result.words.now ≡ words.now }
        ensures start { result.place ≡ 0 }
    {
        Reader { words, place: 0 }
    }

    // Whether no word is left.
    pub fn is_done(&self) -> bool
        ensures { result ≡ nat_le (length self.now.words.now) self.now.place }
    {
        self.words.len() <= self.place
    }

    // The next call; or the place of a word that is wrong, unknown or missing, and then the reader stays where it is.
    pub fn call(&mut self) -> Result<Call, Misread>
        ensures read { Read self.old.words.now self.old.place result self.new.place }
        ensures same { self.new.words.now ≡ self.old.words.now }
    {
        let mut ahead = *self;
        let number = ahead.value(Kind::Call)?;
        let kinds = shape(number).ok_or(Misread { place: self.place })?;
        let figures = ahead.figures(kinds)?;
        self.place = ahead.place;
        Ok(call_of(number, &figures))
    }

    // The values of the next words, which are of these kinds; or the place of one that is wrong or missing.
    fn figures(&mut self, kinds: &[Kind]) -> Result<Figures, Misread>
        requires { length kinds.now ≤ 8 }
        ensures read { Taken kinds.now self.old.words.now self.old.place result self.new.place }
        ensures same { self.new.words.now ≡ self.old.words.now }
    {
        let mut figures = Figures::new();
        for kind in kinds {
            figures.push(self.value(*kind)?);
        }
        Ok(figures)
    }

    // The value of the next word, if it is of this kind; if not, the reader stays where it is.
    fn value(&mut self, kind: Kind) -> Result<u32, Misread>
        ensures read { Valued kind self.old.words.now self.old.place result self.new.place }
        ensures same { self.new.words.now ≡ self.old.words.now }
    {
        match self.words.get(self.place) {
            Some(word) if is_of(*word, kind) => {
                self.place += 1;
                Ok(value_of(*word))
            }
            _ => Err(Misread { place: self.place }),
        }
    }
}
