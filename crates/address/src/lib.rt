// The models of a pack, track addresses, their order, and the extent.
#![tactic(auto)]

ghost use Rattle.std.specs.Prelude.{◌≡◌, length, ok_or};
ghost use Rattle.questions.specs.declared.Question.TheVariants as Question;
ghost use Rattle.address.specs.Model.{model_of, last_of};
ghost use Rattle.address.specs.Order.{on_pack};
ghost use Rattle.address.specs.Within.{extent_of, within, sound_extent, extent_answer};

use questions::Question;

// The model of a pack: 1 or 11.
#[derive(Clone, Copy, PartialEq, Eq)]
pub enum Model {
    One,
    Eleven,
}

// The model with a number; any other number is refused by question 1.
impl TryFrom<u8> for Model {
    type Error = Question;

    ghost try_from_gives = { λ n r. r ≡ ok_or (model_of n) Question.Areas };

    fn try_from(n: u8) -> Result<Model, Question> {
        match n {
            1 => Ok(Model::One),
            11 => Ok(Model::Eleven),
            _ => Err(Question::Areas),
        }
    }
}

// The last cylinder of a pack.
pub fn last_cylinder(m: Model) -> usize
    ensures { result ≡ last_of m }
{
    match m {
        Model::One => 410,
        Model::Eleven => 814,
    }
}

// A track. The order is by cylinder, then by head.
#[derive(Clone, Copy, PartialEq, Eq, PartialOrd, Ord)]
pub struct Address {
    pub cylinder: usize,
    pub head: usize,
}

impl Address {
    // Whether the track is on a pack of this model.
    pub fn on_pack(self, m: Model) -> bool
        ensures { result ≡ on_pack (last_of m) self }
    {
        if last_cylinder(m) < self.cylinder {
            return false;
        }
        self.head <= 18
    }
}

// From the first track to the last one, both included, on a pack of a model.
#[derive(Clone, Copy)]
pub struct Extent {
    pub first: Address,
    pub last: Address,
    pub model: Model,
}

impl Extent {
    pub fn holds(self, a: Address) -> bool
        ensures { result ≡ within self a }
    {
        if a < self.first {
            return false;
        }
        !(self.last < a)
    }

    pub fn on_pack(self) -> bool
        ensures { result ≡ sound_extent self }
    {
        let m = self.model;
        if !self.first.on_pack(m) {
            return false;
        }
        if !self.last.on_pack(m) {
            return false;
        }
        !(self.last < self.first)
    }
}

// The extent in eight bytes, on a pack of a model.
pub fn extent_of(m: Model, s: &[u8]) -> Extent
    requires { length s.now ≡ 8 }
    ensures { result ≡ extent_of m s.now }
{
    Extent {
        first: Address {
            cylinder: base::be16(s, 0),
            head: base::be16(s, 2),
        },
        last: Address {
            cylinder: base::be16(s, 4),
            head: base::be16(s, 6),
        },
        model: m,
    }
}

// Questions 1 and 5 for an extent: eight bytes, both tracks on the pack, the first not after the last.
pub fn check_extent(m: Model, s: &[u8]) -> Result<(), Question>
    ensures { result ≡ extent_answer m s.now }
{
    if s.len() != 8 {
        return Err(Question::Areas);
    }
    if extent_of(m, s).on_pack() {
        return Ok(());
    }
    Err(Question::Extent)
}
