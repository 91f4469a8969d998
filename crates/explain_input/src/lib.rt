// The parts of the input of the program `explain`.
#![tactic(auto)]

ghost use Rattle.std.specs.Prelude.{◌≡◌, ◌≤◌, length};
ghost use Rattle.explain_input.specs.Input.{last_at, parts_of};
ghost use Rattle.explain_input.specs.Found.{LastInside, found_in, Inside};

use fields::Field;

// Where the parts stand: the chain up to the report, the report up to the extent's field, the extent up to the end.
#[derive(Clone, Copy)]
pub struct Places {
    pub chain: usize,
    pub report: usize,
    pub end: usize,
    pub extent: usize,
}

// The extent's field, with its own place.
#[derive(Clone, Copy)]
struct Last {
    at: usize,
    field: Field,
}

// The first field with tag 32 from a place on, if only whole fields stand before it.
fn last_at(input: &[u8], from: usize) -> Option<Last>
    requires { from ≤ length input.now }
    ensures value { result ≡ last_at input.now from }
    ensures inside { LastInside result from (length input.now) }
{
    let mut at = from;
    while at < input.len() {
        let field = fields::field_at(input, at)?;
        if field.tag == 0x32 {
            return Some(Last {
                at: at,
                field: field,
            });
        }
        at = field.next;
    }
    None
}

// The parts, or that the input is too long or its chain or extent is not there, or something stands behind the extent.
pub fn find(input: &[u8]) -> Option<Places>
    ensures value { found_in input.now result ≡ parts_of input.now }
    ensures inside { Inside result (length input.now) }
{
    if 60000 < input.len() {
        return None;
    }
    let chain = fields::wanted_at(input, 0, 0x30)?;
    let last = last_at(input, chain.next)?;
    if last.field.next != input.len() {
        return None;
    }
    Some(Places {
        chain: chain.start,
        report: chain.next,
        end: last.at,
        extent: last.field.start,
    })
}
