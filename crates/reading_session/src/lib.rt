// The program's work between its input and its output: the parts are found, the reading is done, the lines are put.
#![tactic(auto)]

ghost use Rattle.std.specs.Prelude.{◌≡◌, ◌≤◌, length};
ghost use Rattle.text.specs.Text.{Puts};
ghost use Rattle.reading_lines.specs.Lines.{room};
ghost use Rattle.reading_input.specs.Found.{parts_in, Ordered};
ghost use Rattle.reading_session.specs.Session.{reading_of, shown, answered, text_of};

use address::Model;
use questions::Question;
use reading_input::Places;

// The reading of the parts at their places, and its lines.
fn read_parts(input: &[u8], p: Places, storage: &mut [u8], out: &mut [u8]) -> usize
    requires ordered { Ordered p (length input.now) }
    requires room_in_bounds { room ≤ length out.old }
    ensures puts { Puts out.old 0 (shown (reading_of (parts_in input.now p) storage.old)) out.new result }
    ensures upper_bound { result ≤ room }
    ensures storage_after { storage.new ≡ (reading_of (parts_in input.now p) storage.old).storage }
{
    let chain = p.chain;
    let second = p.second;
    let arguments = p.arguments;
    let third = p.third;
    let extent = p.extent;
    let faults = p.faults;
    let image = p.image;
    let mut program = [0u8; 64];
    let mut restart_arguments = [0u8; 16];
    let mut list = [0u8; 24576];
    let r = whole_reading::read(
        Model::One,
        &input[chain..second],
        &input[arguments..third],
        storage,
        &input[image..],
        &input[faults..image],
        &input[extent..faults],
        4096,
        &mut program,
        &mut restart_arguments,
        &mut list,
    );
    reading_lines::put(out, r, storage, &list)
}

// What the program prints for an input, at the front of an area that has room for the longest; how many bytes it has. Storage is
// lent to the reading.
pub fn run(input: &[u8], storage: &mut [u8], out: &mut [u8; reading_lines::ROOM]) -> usize
    ensures text { Puts out.old 0 (text_of input.now storage.old) out.new result }
    ensures length { result ≤ length out.new }
    ensures storage { storage.new ≡ (answered input.now storage.old).storage }
{
    let Some(p) = reading_input::find(input) else {
        return reading_lines::put_refusal(out, 0, Question::Areas);
    };
    read_parts(input, p, storage, out)
}
