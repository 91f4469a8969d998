// The parts of the program's input.
#![tactic(auto)]

ghost use Rattle.std.specs.Prelude.{◌≡◌, ◌≤◌, length};
ghost use Rattle.reading_input.specs.Input.{image_at, parts_of};
ghost use Rattle.reading_input.specs.Found.{found_in, Inside};

// Where the parts stand: chain, arguments and extent each from its own place up to the field behind it, the faults up to the
// image, the image up to the end.
#[derive(Clone, Copy)]
pub struct Places {
    pub chain: usize,
    pub second: usize,
    pub arguments: usize,
    pub third: usize,
    pub extent: usize,
    pub faults: usize,
    pub image: usize,
}

// The place behind the faults from a place on.
fn image_at(input: &[u8], at: usize) -> usize
    requires { at ≤ length input.now }
    ensures value { result ≡ image_at input.now at }
    ensures lower_bound { at ≤ result }
    ensures upper_bound { result ≤ length input.now }
{
    let mut here = at;
    while here < input.len() {
        if input[here] != 0x20 {
            return here;
        }
        let Some(f) = fields::field_at(input, here) else {
            return input.len();
        };
        here = f.next;
    }
    here
}

// The parts, or that the input is too long or one of its first three fields is not there.
pub fn find(input: &[u8]) -> Option<Places>
    ensures value { found_in input.now result ≡ parts_of input.now }
    ensures inside { Inside result (length input.now) }
{
    if 60000 < input.len() {
        return None;
    }
    let chain = fields::wanted_at(input, 0, 0x30)?;
    let arguments = fields::wanted_at(input, chain.next, 0x31)?;
    let extent = fields::wanted_at(input, arguments.next, 0x32)?;
    Some(Places {
        chain: chain.start,
        second: chain.next,
        arguments: arguments.start,
        third: arguments.next,
        extent: extent.start,
        faults: extent.next,
        image: image_at(input, extent.next),
    })
}
