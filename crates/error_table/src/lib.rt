// The error table: which recovery action three sense bytes ask for.
#![tactic(auto)]

ghost use Rattle.std.specs.Prelude.{[], ◌∷◌, ◌≡◌};
ghost use Rattle.recovery.specs.Table;
ghost use Rattle.error_table.specs.Table.{code_of, row_of, Matches, Chooses};

// The recovery actions.
#[derive(Clone, Copy, Debug, PartialEq, Eq)]
pub enum Action {
    One = 1,
    Two = 2,
    Three = 3,
    Four = 4,
    Five = 5,
    Six = 6,
    SixA = 0x16,
    Seven = 7,
    Eight = 8,
    Nine = 9,
    Ten = 10,
    Eleven = 11,
}

impl Action {
    // The code in the table: the number, and 0x16 for 6A.
    pub fn code(self) -> u8
        ensures { result ≡ code_of self }
    {
        self as u8
    }
}

// A row: the bits of sense 0, 1 and 2 that it asks for, and its action.
#[derive(Clone, Copy, Debug, PartialEq, Eq)]
pub struct Row {
    pub zero: u8,
    pub one: u8,
    pub two: u8,
    pub action: Action,
}

// A row by its bits and its action.
macro_rules! row {
    ($zero:literal, $one:literal, $two:literal => $action:ident) => {
        Row {
            zero: $zero,
            one: $one,
            two: $two,
            action: Action::$action,
        }
    };
}

const ROWS: [Row; 20] = [
    row!(0x80, 0x02, 0 => One),
    row!(0x80, 0, 0 => Two),
    row!(0x40, 0, 0 => Three),
    row!(0x20, 0, 0 => Three),
    row!(0x10, 0x80, 0 => One),
    row!(0x10, 0, 0 => Four),
    row!(0x08, 0x80, 0 => One),
    row!(0x08, 0x01, 0x40 => Six),
    row!(0x08, 0x01, 0 => SixA),
    row!(0x08, 0, 0x40 => Five),
    row!(0x04, 0x80, 0 => One),
    row!(0x04, 0, 0 => Four),
    row!(0, 0x40, 0 => Two),
    row!(0, 0x21, 0 => Nine),
    row!(0, 0x20, 0 => Eight),
    row!(0, 0x08, 0 => Two),
    row!(0, 0x05, 0 => Eleven),
    row!(0, 0x04, 0 => Ten),
    row!(0, 0x01, 0 => Seven),
    row!(0, 0, 0x10 => Three),
];

// Whether all these bits are on in a byte.
fn covers(byte: u8, bits: u8) -> bool
    ensures { result ≡ Table.covers byte bits }
{
    byte & bits == bits
}

fn fits(r: Row, s0: u8, s1: u8, s2: u8) -> bool
    ensures { result ≡ Table.fits (s0 ∷ s1 ∷ s2 ∷ []) (row_of r) }
{
    covers(s0, r.zero) && covers(s1, r.one) && covers(s2, r.two)
}

// The first row whose bits are all on in sense 0, 1 and 2, with its number, counted from 1.
pub fn row_for(s0: u8, s1: u8, s2: u8) -> Option<(usize, Row)>
    ensures { Matches s0 s1 s2 result }
{
    for (i, r) in ROWS.iter().enumerate() {
        if fits(*r, s0, s1, s2) {
            return Some((i + 1, *r));
        }
    }
    None
}

// The action of that row.
pub fn action_for(s0: u8, s1: u8, s2: u8) -> Option<Action>
    ensures { Chooses s0 s1 s2 result }
{
    row_for(s0, s1, s2).map(|(_, r)| r.action)
}
