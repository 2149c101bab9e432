//! The classes of records.
ghost use Rattle.std.specs.Prelude.{◌≡◌, min};
ghost use Rattle.tree.specs.Classes.{ClassOf, last_day, row, row_at, row_of};

/// The classes of records.
#[derive(Clone, Copy, Debug, PartialEq, Eq)]
pub enum Class {
    /// Scans, kept two years.
    Scan,
    /// Marks, kept ten years.
    Mark,
    /// Examiners' drafts, kept thirty days.
    Draft,
}

/// A letter or a number that no class has.
#[derive(Clone, Copy, Debug, PartialEq, Eq)]
pub struct NotListed;

/// What is said of a class: its number, its letter, the days that a record is kept, and the most bytes of a value.
/// Number and letter are bytes, since so they stand in a page and in an answer.
#[derive(Clone, Copy, Debug, PartialEq, Eq)]
pub struct ClassRow {
    pub class: u8,
    pub letter: u8,
    pub days: u16,
    pub longest: usize,
}

const SCAN: ClassRow = ClassRow {
    class: 1,
    letter: b's',
    days: 730,
    longest: 64,
};

const MARK: ClassRow = ClassRow {
    class: 2,
    letter: b'm',
    days: 3650,
    longest: 24,
};

const DRAFT: ClassRow = ClassRow {
    class: 3,
    letter: b'd',
    days: 30,
    longest: 120,
};

/// The class of a letter.
impl TryFrom<char> for Class {
    type Error = NotListed;

    ghost try_from_gives = { λ letter r. ClassOf (row_of letter) r };

    fn try_from(letter: char) -> Result<Class, NotListed> {
        match letter {
            's' => Ok(Class::Scan),
            'm' => Ok(Class::Mark),
            'd' => Ok(Class::Draft),
            _ => Err(NotListed),
        }
    }
}

/// The class of a number.
impl TryFrom<u8> for Class {
    type Error = NotListed;

    ghost try_from_gives = { λ number r. ClassOf (row_at number) r };

    fn try_from(number: u8) -> Result<Class, NotListed> {
        match number {
            1 => Ok(Class::Scan),
            2 => Ok(Class::Mark),
            3 => Ok(Class::Draft),
            _ => Err(NotListed),
        }
    }
}

impl Class {
    /// What is said of the class.
    pub fn row(self) -> ClassRow
        ensures { result ≡ row self }
    {
        match self {
            Class::Scan => SCAN,
            Class::Mark => MARK,
            Class::Draft => DRAFT,
        }
    }
}

impl ClassRow {
    /// The last day of a record that is put on `day`, or the greatest number where that passes it.
    pub fn last_day(self, day: u32) -> u32
        ensures { result ≡ min (last_day self day) 4294967295 }
    {
        day.saturating_add(self.days as u32)
    }
}
