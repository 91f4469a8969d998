// Channel command words: where they stand, how the next one is found, and the bytes of a read through a data chain.
// No knowledge of disks.
#![tactic(auto)]

ghost use Rattle.std.specs.Prelude.{◌≡◌, ◌+◌, ◌≤◌, length};
ghost use Rattle.channel.specs.Ccw.{ccw_at, is_tic, chains_data, chains_command};
ghost use Rattle.channel.specs.Walk.{incorrect_length};
ghost use Rattle.channel.specs.Fetch.{shows_length, stands_at, stands_in, ccw_in, InBytes, Inside, FetchedFrom, GotInside, Fetches, Resolves};

// A CCW's fields; its ignored byte is left out. Numbers stand before bytes here and in other structs of a step, so that no padding
// lies between: the compiler would move it along.
#[derive(Clone, Copy)]
pub struct Ccw {
    pub address: usize,
    pub count: usize,
    pub command: u8,
    pub flags: u8,
}

// A CCW's place: in the chain, or in a restart program, counted from that area's front.
#[derive(Clone, Copy)]
pub enum Location {
    Chain(usize),
    Restart(usize),
}

// Unit status, and that of a command whose end shows neither unit check nor unit exception.
pub const CHANNEL_END: u8 = 0x08;

pub const DEVICE_END: u8 = 0x04;

pub const UNIT_CHECK: u8 = 0x02;

pub const UNIT_EXCEPTION: u8 = 0x01;

pub const END_STATUS: u8 = CHANNEL_END | DEVICE_END;

// Channel status.
pub const INCORRECT_LENGTH: u8 = 0x40;

pub const PROGRAM_CHECK: u8 = 0x20;

// The channel status word: its address, the count left, unit and channel status.
#[derive(Clone, Copy)]
pub struct Csw {
    pub address: usize,
    pub count: usize,
    pub unit: u8,
    pub channel: u8,
}

impl Ccw {
    // Chain data, CD.
    pub fn chains_data(self) -> bool
        ensures { result ≡ chains_data self }
    {
        base::bit(self.flags, 0)
    }

    // Chain command, CC.
    pub fn chains_command(self) -> bool
        ensures { result ≡ chains_command self }
    {
        base::bit(self.flags, 1)
    }

    // Suppress length indication, SLI.
    pub fn suppresses(self) -> bool
        ensures { result ≡ Rattle.channel.specs.Ccw.suppresses self }
    {
        base::bit(self.flags, 2)
    }

    pub fn skips(self) -> bool
        ensures { result ≡ Rattle.channel.specs.Ccw.skips self }
    {
        base::bit(self.flags, 3)
    }

    // Transfer in channel, TIC.
    pub fn is_tic(self) -> bool
        ensures { result ≡ is_tic self }
    {
        self.command % 16 == 8
    }

    // Whether count and low flag bits are as they must be outside a TIC.
    pub fn formed(self) -> bool
        ensures { result ≡ Rattle.channel.specs.Ccw.formed self }
    {
        if self.count == 0 {
            return false;
        }
        self.flags & 7 == 0
    }

    // Whether a read may use the CCW, with storage of `size` bytes.
    pub fn readable(self, size: usize) -> bool
        requires { InBytes self }
        ensures { result ≡ Rattle.channel.specs.Walk.readable size self }
    {
        if !self.formed() {
            return false;
        }
        if self.skips() {
            return true;
        }
        self.address + self.count <= size
    }

    // Whether this CCW shows a wrong length at a read's end.
    fn shows_length(self) -> bool
        ensures { result ≡ shows_length self }
    {
        if !self.suppresses() {
            return true;
        }
        self.chains_data()
    }

    // Whether a read that ends at this CCW, with `left` of its count left, shows incorrect length.
    pub fn incorrect_length(self, left: usize, over: bool) -> bool
        ensures { result ≡ incorrect_length self left over }
    {
        if over {
            return self.shows_length();
        }
        if left == 0 {
            return false;
        }
        self.shows_length()
    }
}

fn ccw_at(s: &[u8], a: usize) -> Ccw
    requires { a + 8 ≤ length s.now }
    ensures value { result ≡ ccw_at s.now a }
    ensures in_bytes { InBytes result }
{
    Ccw {
        command: s[a],
        address: base::be24(s, a + 1),
        flags: s[a + 4],
        count: base::be16(s, a + 6),
    }
}

// Whether a CCW stands at an address of an area of n bytes: one past its end or not a multiple of 8 has none.
fn stands(n: usize, a: usize) -> bool
    ensures { result ≡ stands_at n a }
{
    if a % 8 != 0 {
        return false;
    }
    a / 8 < n / 8
}

// Whether one stands at a place.
fn holds(chain: &[u8], program: &[u8], l: Location) -> bool
    ensures { result ≡ stands_in chain.now program.now l }
{
    match l {
        Location::Chain(a) => stands(chain.len(), a),
        Location::Restart(a) => stands(program.len(), a),
    }
}

// The CCW that stands there.
fn held(chain: &[u8], program: &[u8], l: Location) -> Ccw
    requires { Inside chain.now program.now l }
    ensures value { result ≡ ccw_in chain.now program.now l }
    ensures in_bytes { InBytes result }
{
    match l {
        Location::Chain(a) => ccw_at(chain, a),
        Location::Restart(a) => ccw_at(program, a),
    }
}

pub fn fetch(chain: &[u8], program: &[u8], l: Location) -> Option<Ccw>
    ensures fetches { Fetches chain.now program.now l result }
    ensures fetched_from { FetchedFrom chain.now program.now l result }
{
    if holds(chain, program, l) {
        return Some(held(chain, program, l));
    }
    None
}

// Where a TIC leads.
fn target(l: Location, to: usize) -> Location
    ensures { result ≡ Rattle.channel.specs.Ccw.target l to }
{
    match l {
        Location::Chain(_) => {
            return Location::Chain(to);
        }
        Location::Restart(_) => {
            if to < 0x1000 {
                return Location::Chain(to);
            }
            return Location::Restart(to - 0x1000);
        }
    }
}

// The same place, built anew: without padding to carry along, `resolve` is small enough for the compiler to build it in.
fn anew(l: Location) -> Location
    ensures { result ≡ l }
{
    match l {
        Location::Chain(a) => Location::Chain(a),
        Location::Restart(a) => Location::Restart(a),
    }
}

// The CCW at a place, through at most one TIC; `last` is the one that was fetched before it.
pub fn resolve(
    chain: &[u8],
    program: &[u8],
    last: Location,
    l: Location,
) -> Result<(Location, Ccw), Location>
    ensures resolves { Resolves chain.now program.now last l result }
    ensures got_inside { GotInside chain.now program.now result }
{
    let Some(c) = fetch(chain, program, l) else {
        return Err(anew(last));
    };
    if !c.is_tic() {
        return Ok((anew(l), c));
    }
    let to = target(l, c.address);
    let Some(e) = fetch(chain, program, to) else {
        return Err(anew(l));
    };
    if e.is_tic() {
        return Err(to);
    }
    Ok((to, e))
}
