// The restart areas, byte by byte: a restart program of 64 bytes, and its arguments, 16 bytes. Unused bytes are 0.
#![tactic(auto)]

ghost use Rattle.std.specs.Prelude.{[], ◌≡◌, ◌+◌, ◌<◌, ◌≤◌, length};
ghost use Rattle.channel.specs.Fetch.{InBytes};
ghost use Rattle.drive.specs.Drive.{address_bytes};
ghost use Rattle.restart.specs.Restart.{ccw_bytes, program_of, search_program, overflow_program, mask_byte, restart_arguments_of, search_arguments};
ghost use Rattle.restart_areas.specs.Placed.{placed, begun, begun_to, TicLow};

use address::Address;
use channel::Ccw;
use restart::ReadCount;

// Bytes one behind the other, from a place on.
fn place(area: &mut [u8], at: usize, bytes: &[u8])
    requires { at + length bytes.now ≤ length area.old }
    ensures { area.new ≡ placed area.old at bytes.now }
{
    for i in 0..bytes.len() {
        area[at + i] = bytes[i];
    }
}

fn put_ccw(program: &mut [u8], at: usize, command: u8, address: usize, flags: u8, count: usize)
    requires at_in_bounds { at + 8 ≤ length program.old }
    requires address_bound { address < 16777216 }
    requires count_bound { count < 65536 }
    ensures { program.new ≡ placed program.old at (ccw_bytes command address flags count) }
{
    let [_, high, middle, low] = (address as u32).to_be_bytes();
    let [count_high, count_low] = (count as u16).to_be_bytes();
    let bytes = [command, high, middle, low, flags, 0, count_high, count_low];
    place(program, at, &bytes);
}

// Seek, mask if one was set, and sector, at the front of the program; the place behind them.
fn begin(program: &mut [u8], mask: Option<u8>) -> usize
    requires { length program.old ≡ 64 }
    ensures program_after { program.new ≡ begun mask }
    ensures value { result ≡ begun_to mask }
    ensures upper_bound { result ≤ 24 }
{
    program.fill(0);
    put_ccw(program, 0, 0x07, 0x2000, 0x40, 6);
    match mask {
        None => {
            put_ccw(program, 8, 0x23, 0x2007, 0x40, 1);
            16
        }
        Some(_) => {
            put_ccw(program, 8, 0x1f, 0x2006, 0x40, 1);
            put_ccw(program, 16, 0x23, 0x2007, 0x40, 1);
            24
        }
    }
}

// The restart program of action 5, and with a read count of 5A: the search for an ID, and a TIC to the chain's CCW at `to`.
pub fn search_program(program: &mut [u8], mask: Option<u8>, counts: ReadCount, to: usize)
    requires program_len { length program.old ≡ 64 }
    requires to_bound { to < 65536 }
    ensures { program.new ≡ search_program mask counts to }
{
    let at = begin(program, mask);
    put_ccw(program, at, 0x31, 0x2008, 0x40, 5);
    put_ccw(program, at + 8, 0x08, 0x1000 + at, 0, 0);
    match counts {
        ReadCount::Omitted => {
            put_ccw(program, at + 16, 0x08, to, 0, 0);
        }
        ReadCount::Single => {
            put_ccw(program, at + 16, 0x12, 0, 0x50, 8);
            put_ccw(program, at + 24, 0x08, to, 0, 0);
        }
        ReadCount::Multitrack => {
            put_ccw(program, at + 16, 0x92, 0, 0x50, 8);
            put_ccw(program, at + 24, 0x08, to, 0, 0);
        }
    }
}

// The restart program of actions 8, 10 and 10A: the home address, and a TIC to the chain's CCW at `to`.
pub fn home_program(program: &mut [u8], mask: Option<u8>, to: usize)
    requires program_len { length program.old ≡ 64 }
    requires to_bound { to < 65536 }
    ensures { program.new ≡ program_of mask (ccw_bytes 0x1a 0 0x50 5) to }
{
    let at = begin(program, mask);
    put_ccw(program, at, 0x1a, 0, 0x50, 5);
    put_ccw(program, at + 8, 0x08, to, 0, 0);
}

// The restart program of actions 9 and 11: the home address, restart CCW 1, and the last TIC if there is one.
pub fn overflow_program(program: &mut [u8], mask: Option<u8>, first: Ccw, tic: Option<usize>)
    requires program_len { length program.old ≡ 64 }
    requires in_bytes { InBytes first }
    requires tic_low { TicLow tic }
    ensures { program.new ≡ overflow_program mask first tic }
{
    let at = begin(program, mask);
    put_ccw(program, at, 0x1a, 0, 0x50, 5);
    put_ccw(
        program,
        at + 8,
        first.command,
        first.address,
        first.flags,
        first.count,
    );
    match tic {
        None => {}
        Some(to) => {
            put_ccw(program, at + 16, 0x08, to, 0, 0);
        }
    }
}

// Cylinder and head, two bytes each.
fn put_address(restart_arguments: &mut [u8], at: usize, a: Address)
    requires at_in_bounds { at + 4 ≤ length restart_arguments.old }
    requires cylinder_bound { a.cylinder < 65536 }
    requires head_bound { a.head < 65536 }
    ensures { restart_arguments.new ≡ placed restart_arguments.old at (address_bytes a) }
{
    place(restart_arguments, at, &(a.cylinder as u16).to_be_bytes());
    place(restart_arguments, at + 2, &(a.head as u16).to_be_bytes());
}

fn mask_byte(mask: Option<u8>) -> u8
    ensures { result ≡ mask_byte mask }
{
    match mask {
        None => 0,
        Some(m) => m,
    }
}

// The arguments of seek, mask and sector: with sector 0, the restart arguments of actions 8 to 11.
pub fn begin_arguments(restart_arguments: &mut [u8], a: Address, mask: Option<u8>, sector: u8)
    requires restart_arguments_len { length restart_arguments.old ≡ 16 }
    requires cylinder_bound { a.cylinder < 65536 }
    requires head_bound { a.head < 65536 }
    ensures { restart_arguments.new ≡ restart_arguments_of a mask sector [] }
{
    restart_arguments.fill(0);
    put_address(restart_arguments, 2, a);
    place(restart_arguments, 6, &[mask_byte(mask), sector]);
}

// The restart arguments of actions 5 and 5A, with the ID of record r.
pub fn search_arguments(
    restart_arguments: &mut [u8],
    a: Address,
    mask: Option<u8>,
    sector: u8,
    r: u8,
)
    requires restart_arguments_len { length restart_arguments.old ≡ 16 }
    requires cylinder_bound { a.cylinder < 65536 }
    requires head_bound { a.head < 65536 }
    ensures { restart_arguments.new ≡ search_arguments a mask sector r }
{
    begin_arguments(restart_arguments, a, mask, sector);
    put_address(restart_arguments, 8, a);
    place(restart_arguments, 12, &[r]);
}
