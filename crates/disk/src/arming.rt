// How a disk is armed to lose power.
ghost use Rattle.std.specs.Prelude.{◌≡◌, ◌<◌, true, false, MatchResult};
ghost use Rattle.arrayvec.specs.ArrayVec.{array_vec_len};

use arrayvec::ArrayVec;

/// Why an arming is refused.
#[derive(Clone, Copy, Debug, PartialEq, Eq)]
pub enum ArmFault {
    /// Not one to eight letters of o, n and t, or not a length from 1 to 255.
    NotAsStated,
}

impl ArmFault {
    ghost use Rattle.disk.specs.Arm.{arm_number};

    /// The number by which a refusal is known. A `u8::from` would not say what its number is.
    pub fn number(self) -> u8
        ensures { result ≡ arm_number self }
    {
        match self {
            ArmFault::NotAsStated => 8,
        }
    }
}

/// What a loss of power leaves of an unsettled page.
#[derive(Clone, Copy, Debug, Default, PartialEq, Eq)]
pub(crate) enum Letter {
    /// The old page, by the letter o.
    #[default]
    Old,
    /// The new page, by the letter n.
    New,
    /// The front of the new page and the rest of the old one, by the letter t.
    Torn,
}

impl TryFrom<u8> for Letter {
    ghost use Rattle.disk.specs.Arm.{ReadsLetter};

    type Error = ArmFault;

    ghost try_from_gives = { ReadsLetter };

    fn try_from(x: u8) -> Result<Letter, ArmFault> {
        match x {
            b'o' => Ok(Letter::Old),
            b'n' => Ok(Letter::New),
            b't' => Ok(Letter::Torn),
            _ => Err(ArmFault::NotAsStated),
        }
    }
}

/// What a disk is armed with.
#[derive(Drop)]
pub(crate) struct Arming {
    /// The counted calls until power is lost, the one that loses it included; 0 for never: such an arming is accepted, and holds its letters.
    pub(crate) left: u32,
    pub(crate) letters: ArrayVec<Letter, 8>,
    /// How many bytes of the new page a torn one begins with.
    pub(crate) kept: u8,
    ghost lettered: { 0 < array_vec_len letters },
}

impl Arming {
    ghost use Rattle.disk.specs.Arm.{Ticked, arm_number, bytes_of, stated};

    /// An arming as stated, or its refusal.
    pub(crate) fn new(n: u32, letters: &[u8], t: usize) -> Result<Arming, ArmFault>
        ensures { MatchResult result (λ a. (stated letters.now t ≡ true) × (a.left ≡ n) × (bytes_of a.letters.items ≡ letters.now) × (a.kept ≡ t)) (λ e. (arm_number e ≡ 8) × (stated letters.now t ≡ false)) }
    {
        if !(1..=8).contains(&letters.len()) || !(1..=255).contains(&t) {
            return Err(ArmFault::NotAsStated);
        }
        let mut known = ArrayVec::new();
        for x in letters {
            known.push(Letter::try_from(*x)?);
        }
        Ok(Arming {
            left: n,
            letters: known,
            kept: t as u8,
        })
    }

    /// Counts a call; true if power is lost in it, as `Option::take_if` asks.
    pub(crate) fn tick(&mut self) -> bool
        ensures { Ticked self.old result self.new }
    {
        let lost = self.left == 1;
        self.left = self.left.saturating_sub(1);
        lost
    }
}
